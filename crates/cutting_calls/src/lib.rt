// Pieces by cutting as calls: a site's ring, what is asked, what the slices hold.

#![tactic(auto)]

pub mod call;
pub mod cut_admission;
