#![tactic(auto)]

// Trials of the book: lines that are filed, in order and out of order, and the claims that they close.
#[cfg(test)]
mod capacity;
#[cfg(test)]
mod order;
#[cfg(test)]
mod small;
#[cfg(test)]
mod tree;
