// What a call asks of its own arguments.

#![tactic(auto)]

pub mod asking;
pub mod entries;
