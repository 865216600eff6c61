// Where a build's cells stand in the lent slices: the layout, what is left in them, and the ring that is staged.

#![tactic(auto)]

pub mod layout;
pub mod outputs;
pub mod staging;
