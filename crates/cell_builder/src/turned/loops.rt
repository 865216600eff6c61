// All cells: the hull's in its order, then, half-edge by half-edge, those still empty.
ghost use Rattle.std.specs.Prelude.{◌≡◌, List, ℕ, ◌<◌, length};
ghost use Rattle.cell_builder.specs.tried.SlicesInvariant.{plan, EdgesAmid};
ghost use Rattle.cell_builder.specs.turned.Turns.{DueTried};
ghost use Rattle.cell_builder.specs.turned.Loops.{HullsAmid, HullsTried, RestTried, AllTried};

use crate::finish::Progress;
use crate::tried::Frame;
use crate::tried::tries::{clip_at_edge, clip_at_hull};
use crate::turned::marks::{mark_hulls, mark_outside};
use crate::turned::retries::closes_outside;
use crate::turned::turns::next_due;

// The cells of all hull sites.
fn clip_hull(
    triangles: &[u32],
    halfedges: &[u32],
    hull: &[u32],
    table: &[u32],
    vertices: &mut [f64],
    indexes: &mut [u32],
    offsets: &[u32],
    f: Frame,
    p: Progress,
) -> Progress
    requires { HullsAmid (plan triangles.now halfedges.now hull.now table.now f offsets.now) p vertices.old indexes.old }
    ensures { HullsTried (plan triangles.now halfedges.now hull.now table.now f offsets.now) p
        vertices.old indexes.old result vertices.new indexes.new }
{
    let mut at = p;
    for i in 0..hull.len() {
        let r = clip_at_hull(
            triangles, halfedges, hull, table, vertices, indexes, offsets, f, at, i,
        );
        let fault = r.fault;
        if fault.number != 0 {
            return r;
        }
        at = r;
    }
    at
}

// The cell of the site where half-edge e ends, if it is still empty, unless a try there is known to put nothing.
fn clip_due(
    triangles: &[u32],
    halfedges: &[u32],
    table: &[u32],
    vertices: &mut [f64],
    indexes: &mut [u32],
    offsets: &[u32],
    f: Frame,
    p: Progress,
    e: usize,
) -> Progress
    requires { (e < length triangles.now) × (hull : List ℕ) × EdgesAmid (plan triangles.now halfedges.now hull table.now f offsets.now) p vertices.old indexes.old }
    ensures { (hull : List ℕ) → DueTried (plan triangles.now halfedges.now hull table.now f offsets.now) p
        vertices.old indexes.old e result vertices.new indexes.new }
{
    let bounds = f.bounds;
    if closes_outside(
        triangles, halfedges, table, vertices, indexes, offsets, p.count, bounds, e,
    ) {
        return p;
    }
    clip_at_edge(triangles, halfedges, vertices, indexes, offsets, f, p, e)
}

// The cells still empty, from each half-edge in turn; early ones are left out.
fn clip_rest(
    triangles: &[u32],
    halfedges: &[u32],
    table: &[u32],
    marks: &[u8; 16384],
    vertices: &mut [f64],
    indexes: &mut [u32],
    offsets: &[u32],
    f: Frame,
    p: Progress,
) -> Progress
    requires { (hull : List ℕ) × EdgesAmid (plan triangles.now halfedges.now hull table.now f offsets.now) p vertices.old indexes.old }
    ensures { (hull : List ℕ) → RestTried (plan triangles.now halfedges.now hull table.now f offsets.now) marks.now p
        vertices.old indexes.old result vertices.new indexes.new }
{
    let mut at = p;
    let mut e = next_due(triangles, halfedges, table, marks, 0);
    while e < triangles.len() {
        let r = clip_due(
            triangles, halfedges, table, vertices, indexes, offsets, f, at, e,
        );
        let fault = r.fault;
        if fault.number != 0 {
            return r;
        }
        at = r;
        e = next_due(triangles, halfedges, table, marks, e + 1);
    }
    at
}

// All cells but the early ones, of which the marks tell.
pub fn clip_cells(
    triangles: &[u32],
    halfedges: &[u32],
    hull: &[u32],
    table: &[u32],
    marks: &mut [u8; 16384],
    vertices: &mut [f64],
    indexes: &mut [u32],
    offsets: &[u32],
    f: Frame,
    p: Progress,
) -> Progress
    requires { HullsAmid (plan triangles.now halfedges.now hull.now table.now f offsets.now) p vertices.old indexes.old × (length marks.old ≡ 16384) }
    ensures { AllTried (plan triangles.now halfedges.now hull.now table.now f offsets.now) p
        vertices.old indexes.old marks.new result vertices.new indexes.new }
{
    let r = clip_hull(
        triangles, halfedges, hull, table, vertices, indexes, offsets, f, p,
    );
    let fault = r.fault;
    if fault.number != 0 {
        return r;
    }
    let bounds = f.bounds;
    mark_outside(triangles, table, vertices, r.count, bounds, marks);
    mark_hulls(triangles, halfedges, hull, table, indexes, offsets, marks);
    clip_rest(
        triangles, halfedges, table, marks, vertices, indexes, offsets, f, r,
    )
}
