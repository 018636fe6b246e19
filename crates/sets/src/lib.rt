#![tactic(auto)]

pub mod apart;
mod bounds;
pub mod count;
pub mod fits;
pub mod row;
pub mod within;
