#![tactic(auto)]

pub mod implication;
pub mod roots;
