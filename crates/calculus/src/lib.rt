#![tactic(auto)]

pub mod bank;
pub mod premise;
pub mod rule;
