// What was asked of a mesh that builds, answered over its leftmost table and its cells: why a cell is empty, why a neighbour is gone.
ghost use Rattle.std.specs.Prelude.{◌≡◌, not, ◌+◌, ◌<◌, eqb, length, get_or};
ghost use Rattle.base.specs.numbers.Numbers.{EMPTY};
ghost use Rattle.mesh.specs.Mesh.{whole_of, Paired};
ghost use Rattle.walks.specs.shared.Cells.{Cells, cell_of, holds_of, shared_of, share_edge_of};
ghost use Rattle.walks.specs.neighbours.Neighbours.{starts_of};
ghost use Rattle.queries.specs.clipped.Clipped.{clipped_of};
ghost use Rattle.queries.specs.clipped.Clippable.{Clippable};
ghost use Rattle.reasons.specs.Answer.{empty_answer, answer_to, Askable, SitesBelow};
ghost use Rattle.reasons.specs.declared.Question.TheVariants.{Between};

use crate::{Question, Reason};
use base::numbers::{EMPTY, wide};
use queries::clipped::clipped_step;
use walks::neighbours::{Cursor, step};

// Whether t is among the neighbours of the site whose leftmost half-edge is `start`.
fn is_neighbour(triangles: &[u32], halfedges: &[u32], start: u32, t: u32) -> bool
    requires { Paired triangles.now halfedges.now × (length halfedges.now ≡ length triangles.now) }
    ensures { result ≡ holds_of (starts_of triangles.now halfedges.now (whole_of halfedges.now start)) t }
{
    let mut c = Cursor {
        start,
        next: start,
        last: EMPTY,
    };
    while let Some((x, d)) = step(triangles, halfedges, c) {
        if x == t {
            return true;
        }
        c = d;
    }
    false
}

// Whether t is among the neighbours of site s after clipping; `start` is its leftmost half-edge.
fn stays_neighbour(
    triangles: &[u32],
    halfedges: &[u32],
    offsets: &[u32],
    indexes: &[u32],
    s: u32,
    start: u32,
    t: u32,
) -> bool
    requires { Clippable triangles.now halfedges.now offsets.now indexes.now × (s + 1 < length offsets.now) }
    ensures { result ≡ holds_of (clipped_of triangles.now halfedges.now (share_edge_of offsets.now indexes.now s)
        (whole_of halfedges.now start)) t }
{
    let mut c = Cursor {
        start,
        next: start,
        last: EMPTY,
    };
    while let Some((x, d)) = clipped_step(triangles, halfedges, offsets, indexes, s, c) {
        if x == t {
            return true;
        }
        c = d;
    }
    false
}

// How many entries of the cell of site s stand in that of site t.
fn count_shared(offsets: &[u32], indexes: &[u32], s: u32, t: u32) -> u32
    requires { Cells offsets.now (length indexes.now) × (s + 1 < length offsets.now) × (t + 1 < length offsets.now)
        × (shared_of (cell_of offsets.now indexes.now s) (cell_of offsets.now indexes.now t) < 2) }
    ensures { result ≡ shared_of (cell_of offsets.now indexes.now s) (cell_of offsets.now indexes.now t) }
{
    let first = walks::shared::cell(offsets, indexes, wide(s));
    let second = walks::shared::cell(offsets, indexes, wide(t));
    walks::shared::shared_entries(first, second) as u32
}

// By whether the cell of site s is empty and whether s stands in a triangle.
fn of_cell(s: u32, empty: bool, used: bool) -> Reason
    ensures { result ≡ empty_answer s empty used }
{
    if !empty {
        return Reason::NoFault;
    }
    if used {
        return Reason::TriesEmpty(s);
    }
    Reason::Unused(s)
}

// Why the cell of site s is empty.
fn about(table: &[u32], offsets: &[u32], s: u32) -> Reason
    requires { (s < length table.now) × (s + 1 < length offsets.now) }
    ensures { result ≡ empty_answer s (eqb (get_or offsets.now s 0) (get_or offsets.now (s + 1) 0))
        (not (eqb (get_or table.now s 0) EMPTY)) }
{
    let at = wide(s);
    of_cell(s, offsets[at] == offsets[at + 1], table[at] != EMPTY)
}

// Why site t is gone from the neighbours of site s.
fn between(
    triangles: &[u32],
    halfedges: &[u32],
    table: &[u32],
    offsets: &[u32],
    indexes: &[u32],
    s: u32,
    t: u32,
) -> Reason
    requires { Askable triangles.now halfedges.now table.now offsets.now indexes.now × SitesBelow (length table.now) (Between s t) }
    ensures { result ≡ answer_to triangles.now halfedges.now table.now (cell_of offsets.now indexes.now) (Between s t) }
{
    let start = table[wide(s)];
    if !is_neighbour(triangles, halfedges, start, t) {
        return Reason::NoFault;
    }
    if stays_neighbour(triangles, halfedges, offsets, indexes, s, start, t) {
        return Reason::NoFault;
    }
    Reason::Dropped(s, t, count_shared(offsets, indexes, s, t))
}

// What was asked.
pub fn answer(
    triangles: &[u32],
    halfedges: &[u32],
    table: &[u32],
    offsets: &[u32],
    indexes: &[u32],
    q: Question,
) -> Reason
    requires { Askable triangles.now halfedges.now table.now offsets.now indexes.now × SitesBelow (length table.now) q }
    ensures { result ≡ answer_to triangles.now halfedges.now table.now (cell_of offsets.now indexes.now) q }
{
    match q {
        Question::Nothing => Reason::NoFault,
        Question::About(s) => about(table, offsets, s),
        Question::Between(s, t) => { between(triangles, halfedges, table, offsets, indexes, s, t) }
    }
}
