#![tactic(auto)]

// Trials of the roles: what is below what, and what is transitive.
#[cfg(test)]
mod roles;
