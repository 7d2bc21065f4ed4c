#![tactic(auto)]

// The conclusions of the ten rules, asked of a docket and of the rules themselves, and compared with tables that were written by hand.
// Nothing else is in this crate.
#[cfg(test)]
mod asking;
#[cfg(test)]
mod cuts;
#[cfg(test)]
mod filed;
#[cfg(test)]
mod local;
#[cfg(test)]
mod refused;
#[cfg(test)]
mod roles;
