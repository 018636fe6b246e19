#![tactic(auto)]

mod enter;
mod judge;
pub mod range;
mod read;
mod survey;
