#![tactic(auto)]

// Trials of pairing: what can be paired, when, and what is a mate then.
#[cfg(test)]
mod pairing;
