#![tactic(auto)]

pub mod members;
pub mod rows;
