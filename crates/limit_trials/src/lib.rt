#![tactic(auto)]

// Trials of single calls and questions: ranges, capacities, phases, and which refusal comes first.
#[cfg(test)]
mod capacities;
#[cfg(test)]
mod cut_labels;
#[cfg(test)]
mod numbers;
#[cfg(test)]
mod opening;
#[cfg(test)]
mod phases;
#[cfg(test)]
mod questions;
