#![tactic(auto)]

mod causes;
pub mod groups;
mod parts;
pub mod values;
