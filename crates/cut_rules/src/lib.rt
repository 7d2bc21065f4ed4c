// The rules that split on two mates: 7 to 9.

#![tactic(auto)]

pub mod cut;
pub mod inverse_cut;
mod split;
pub mod transitive_cut;
