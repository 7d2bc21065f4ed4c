#![tactic(auto)]

pub mod kind;
mod layout;
pub mod reader;
pub mod record;
