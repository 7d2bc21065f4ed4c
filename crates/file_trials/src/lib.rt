#![tactic(auto)]

// Trials of whole files: as they are printed, cut, damaged, and with too few places for replies.
#[cfg(test)]
mod damage;
#[cfg(test)]
mod files;
#[cfg(test)]
mod places;
#[cfg(test)]
mod printed;
#[cfg(test)]
mod small;
#[cfg(test)]
mod streams;
