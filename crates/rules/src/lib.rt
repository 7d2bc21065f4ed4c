// The ten rules as one bank.

#![tactic(auto)]

pub mod house;
pub mod table;
