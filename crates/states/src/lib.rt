//! What may be asked of a settled plan and what may be entered into a draft, one small function each.
//! For each there is a twin in `tests/states` that leaves out the settle or the reopen, and must be refused.
#![tactic(auto)]

pub mod bar;
pub mod bounds;
pub mod candidates;
pub mod claim;
pub mod dead;
pub mod limit;
pub mod listing;
pub mod post;
