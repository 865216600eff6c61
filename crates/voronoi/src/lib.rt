// The public surface: every public call under the prefix `voronoi_`, a module for each subject; crate voronoi_c exports each to C.
// No call has a `requires`. Each says its result and every lent slice at exit, and specs/One.antt says that no two results are allowed for one input.

#![tactic(auto)]

pub mod audits;
pub mod builds;
pub mod bulk;
pub mod certificates;
pub mod cuts;
pub mod edges;
pub mod explanations;
pub mod flips;
pub mod forms;
pub mod gauges;
pub mod geometry;
pub mod grids;
pub mod maps;
pub mod mends;
pub mod meshes;
pub mod roots;
pub mod sizes;
pub mod versions;
pub mod walking;
