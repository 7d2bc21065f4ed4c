#![tactic(auto)]

pub mod filing;
pub mod line;
pub mod members;
pub mod search;
