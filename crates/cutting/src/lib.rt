// What a cut is: rings of corners cut at the four sides of the box, and the code of one corner and of one crossing.

#![tactic(auto)]

pub mod border;
pub mod corner;
pub mod meet;
pub mod pen;
