// Rules that are not of the house. They are written as the house's are: each says what it says by a schema, and shows the soundness
// law. In a bank beside the house they are asked by their numbers, and nothing else changes.

#![tactic(auto)]

#[cfg(test)]
mod answers;
#[cfg(test)]
mod banks;
pub mod forgetting;
#[cfg(test)]
mod lines;
pub mod neighbour_cases;
