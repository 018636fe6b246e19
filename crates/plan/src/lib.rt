#![tactic(auto)]

pub mod draft;
pub mod settled;
