// The cell builder's definition is in specs/. Here are the types that the code shares with it.

#![tactic(auto)]

// Why a build is refused. `number` is the refusal's, `place` the triangle for 11, the hull edge's first hull place
// for 12 and the cell for 13 and 14; `from` and `to` are then the edge's two vertices, and 0 for 11 and 12.
#[derive(Clone, Copy)]
pub struct Fault {
    pub number: u32,
    pub place: u32,
    pub from: u32,
    pub to: u32,
}

// How often a vertex was taken again where a point was to be added: as an extension, as the first or the second crossing of an edge.
#[derive(Clone, Copy)]
pub struct Reused {
    pub extensions: usize,
    pub firsts: usize,
    pub seconds: usize,
}
