//! Loads a sheet file into a draft.
#![tactic(auto)]

mod act;
mod check;
mod enter;
mod fault;
pub mod load;
