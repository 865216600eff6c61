// When pieces of any origin are the true ones.

#![tactic(auto)]

pub mod call;
pub mod chains;
pub mod nearer;
pub mod rules;
pub mod sides;
pub mod tree;
pub mod twins;
pub mod windows;
