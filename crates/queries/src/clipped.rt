// iterator.rs: a site's neighbours after clipping, a step at a time: on the hull the first and the last count only where the two cells share an edge.
ghost use Rattle.std.specs.Prelude.{◌≡◌, ◌+◌, ◌<◌, eqb, length};
ghost use Rattle.base.specs.common.Pick.{pick};
ghost use Rattle.mesh.specs.Mesh.{whole_of};
ghost use Rattle.walks.specs.shared.Cells.{Cells, share_edge_of};
ghost use Rattle.walks.specs.neighbours.Cursor.{CursorSettled};
ghost use Rattle.walks.specs.neighbours.Fills.{Fills};
ghost use Rattle.queries.specs.clipped.Clippable.{Clippable};
ghost use Rattle.queries.specs.clipped.Clipped.{clipped_of};
ghost use Rattle.queries.specs.clipped.ClippedCursor.{judge_of, clipped_left, ClippedTakes};

use base::numbers::EMPTY;
use mesh::Walked;
use walks::neighbours::{Cursor, step};

// How a neighbour that comes is judged: it counts; it is the first and dropped, so the next is asked for; it is the last and dropped.
#[derive(Clone, Copy, PartialEq, Eq)]
enum Judgement {
    Counts,
    Dropped,
    Ends,
}

fn if_shared(offsets: &[u32], indexes: &[u32], s: u32, x: u32, other: Judgement) -> Judgement
    requires { Cells offsets.now (length indexes.now) × (s + 1 < length offsets.now) × (x + 1 < length offsets.now) }
    ensures { result ≡ pick (share_edge_of offsets.now indexes.now s x) (λ _. Judgement.Counts) (λ _. other) }
{
    if walks::shared::share_edge(
        offsets,
        indexes,
        base::numbers::wide(s),
        base::numbers::wide(x),
    ) {
        return Judgement::Counts;
    }
    other
}

// Judges neighbour x of site s: half-edge `passed` was the walk's last before it came, and `last` is now.
fn judge(
    halfedges: &[u32],
    offsets: &[u32],
    indexes: &[u32],
    s: u32,
    x: u32,
    passed: u32,
    last: u32,
) -> Judgement
    requires { Cells offsets.now (length indexes.now) × (s + 1 < length offsets.now) × (x + 1 < length offsets.now) }
    ensures { result ≡ judge_of halfedges.now (share_edge_of offsets.now indexes.now s x) passed last }
{
    let at = base::numbers::wide(last);
    if halfedges.len() <= at {
        return if_shared(offsets, indexes, s, x, Judgement::Ends);
    }
    if base::numbers::wide(passed) < halfedges.len() {
        return Judgement::Counts;
    }
    if halfedges[at] != EMPTY {
        return Judgement::Counts;
    }
    if_shared(offsets, indexes, s, x, Judgement::Dropped)
}

// The next neighbour of site s after clipping.
pub fn clipped_step(
    triangles: &[u32],
    halfedges: &[u32],
    offsets: &[u32],
    indexes: &[u32],
    s: u32,
    c: Cursor,
) -> Option<(u32, Cursor)>
    requires { Clippable triangles.now halfedges.now offsets.now indexes.now × (s + 1 < length offsets.now) × CursorSettled halfedges.now c }
    ensures { ClippedTakes triangles.now halfedges.now (share_edge_of offsets.now indexes.now s)
        (clipped_left triangles.now halfedges.now (share_edge_of offsets.now indexes.now s) c) result }
{
    let (x, d) = step(triangles, halfedges, c)?;
    match judge(halfedges, offsets, indexes, s, x, c.last, d.last) {
        Judgement::Counts => Some((x, d)),
        Judgement::Dropped => clipped_step(triangles, halfedges, offsets, indexes, s, d),
        Judgement::Ends => None,
    }
}

// Whether no neighbour is left after clipping.
fn clipped_over(
    triangles: &[u32],
    halfedges: &[u32],
    offsets: &[u32],
    indexes: &[u32],
    s: u32,
    c: Cursor,
) -> bool
    requires { Clippable triangles.now halfedges.now offsets.now indexes.now × (s + 1 < length offsets.now) × CursorSettled halfedges.now c }
    ensures { result ≡ eqb (length (clipped_left triangles.now halfedges.now (share_edge_of offsets.now indexes.now s) c)) 0 }
{
    clipped_step(triangles, halfedges, offsets, indexes, s, c).is_none()
}

// The neighbours of site s after clipping, up to the slice's length; `start` is its leftmost half-edge.
pub fn clipped_neighbours(
    triangles: &[u32],
    halfedges: &[u32],
    offsets: &[u32],
    indexes: &[u32],
    s: u32,
    start: u32,
    out: &mut [u32],
) -> Walked
    requires { Clippable triangles.now halfedges.now offsets.now indexes.now × (s + 1 < length offsets.now) }
    ensures { Fills (clipped_of triangles.now halfedges.now (share_edge_of offsets.now indexes.now s)
        (whole_of halfedges.now start)) out.old out.new result.count result.ended }
{
    let mut c = Cursor {
        start,
        next: start,
        last: EMPTY,
    };
    for n in 0..out.len() {
        match clipped_step(triangles, halfedges, offsets, indexes, s, c) {
            Some((x, d)) => {
                out[n] = x;
                c = d;
            }
            None => {
                return Walked {
                    count: n,
                    ended: true,
                };
            }
        }
    }
    Walked {
        count: out.len(),
        ended: clipped_over(triangles, halfedges, offsets, indexes, s, c),
    }
}
