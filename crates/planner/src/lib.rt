#![tactic(auto)]

pub mod printing;
pub mod rest;
