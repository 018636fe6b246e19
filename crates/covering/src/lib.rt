#![tactic(auto)]

pub mod bits;
pub mod cover;
mod flip;
pub mod notes;
mod search;
pub mod takers;
