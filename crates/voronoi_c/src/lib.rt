// The library for C: each public call of crate voronoi under its own name, module by module, with the same contract. rt makes the archive of this crate,
// since a library that other crates name is none; each export calls the library's function and states its clauses again.

#![tactic(auto)]

pub mod audits;
pub mod builds;
pub mod bulk;
pub mod certificates;
pub mod cuts;
pub mod edges;
pub mod explanations;
pub mod flips;
pub mod forms;
pub mod gauges;
pub mod geometry;
pub mod grids;
pub mod maps;
pub mod mends;
pub mod meshes;
pub mod roots;
pub mod sizes;
pub mod versions;
pub mod walking;
