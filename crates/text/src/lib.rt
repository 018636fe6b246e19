#![tactic(auto)]

pub mod listing;
mod pen;
pub mod refused;
