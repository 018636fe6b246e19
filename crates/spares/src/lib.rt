#![tactic(auto)]

mod close;
mod free;
pub mod spares;
mod turn;
