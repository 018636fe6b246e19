#![tactic(auto)]

pub mod domains;
pub mod fits;
pub mod fresh;
pub mod reads;
pub mod refusal;
pub mod writes;
