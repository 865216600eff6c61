// The corners of a piece as they come, written into the lent slices.

#![tactic(auto)]

pub mod copied;
pub mod end;
pub mod ring;
pub mod short;
pub mod site;
pub mod sites;
pub mod stream;
pub mod turn;
