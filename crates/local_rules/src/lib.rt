// The rules that look at one element alone: 1 to 4, and 6.

#![tactic(auto)]

pub mod bottom;
pub mod clash;
pub mod conjunction;
pub mod disjunction;
pub mod general;
