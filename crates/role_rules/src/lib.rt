// The rules that follow a role: 5 and 10.

#![tactic(auto)]

mod members;
pub mod narrower;
pub mod neighbour;
