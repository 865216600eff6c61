// clip_cell of cell_builder.rs over lent slices: one ring clipped into the cell of its site.

#![tactic(auto)]

pub mod corners;
pub mod edges;
pub mod interior;

use crate::corners::CellSoFar;
use definition::{Fault, Reused};

pub mod step; // step.rt: one edge of the ring
pub mod ring; // ring.rt: the whole ring

// What one edge of the ring gives: the cell, the vertices' count, the points taken again, a refusal or 0, and whether the cell is open.
// The short fields stand last, here and in `Env`: between others they leave a gap, and what is copied with it is read before it is written whole.
#[derive(Clone, Copy)]
pub struct Changed {
    pub cell: CellSoFar,
    pub count: usize,
    pub reused: Reused,
    pub refusal: u32,
    pub opened: bool,
}

// Where the ring's walk stands: the cell, the vertices' count, the ring's vertex, whether that is inside, whether the cell is open.
#[derive(Clone, Copy)]
pub struct Tip {
    pub cell: CellSoFar,
    pub count: usize,
    pub vertex: u32,
    pub inside: bool,
    pub opened: bool,
}

// Where some edges of the ring lead, and the points that they took again; its fault's number is 0 where they refuse nothing.
#[derive(Clone, Copy)]
pub struct RingStepped {
    pub fault: Fault,
    pub tip: Tip,
    pub reused: Reused,
}
