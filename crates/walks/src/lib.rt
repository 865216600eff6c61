// iterator.rs over the lent slices: a site's neighbours, paths, and what two cells or two triangles share.

#![tactic(auto)]

pub mod neighbours;
pub mod paths;
pub mod shared;
