// A dossier from the input to the output: what every program over the docket does with one.

#![tactic(auto)]

pub mod answer;
pub mod failure;
pub mod input;
pub mod output;
pub mod page;
pub mod print;
pub mod printed;
pub mod process;
pub mod programs;
pub mod report;
