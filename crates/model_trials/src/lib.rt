#![tactic(auto)]

// Trials of models: their form, what they mean, and what is left in the working rows.
#[cfg(test)]
mod axioms;
#[cfg(test)]
mod form;
#[cfg(test)]
mod judged;
#[cfg(test)]
mod largest;
#[cfg(test)]
mod lists;
#[cfg(test)]
mod order;
#[cfg(test)]
mod working_rows;
