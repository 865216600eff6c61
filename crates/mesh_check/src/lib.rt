// The check of a lent mesh, a module for each group of rules: counts (1), pairing (7, 8), border (9), fan (10), the leftmost table, and the whole in the order of the rules.

#![tactic(auto)]

pub mod border;
pub mod counts;
pub mod degrees;
pub mod fan;
pub mod pairing;
pub mod table;
mod unpaired; // unpaired.rt: the pass of the unpaired half-edges over a table
pub mod whole;
