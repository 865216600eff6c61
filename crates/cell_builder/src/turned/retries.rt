// The tries of hull sites whose cells stay empty. At the hull place no circumcenter of such a site was inside and no edge between two of them crossed the box. A ring from one of its
// half-edges has those edges again, and one more, which closes it from its first triangle to its last; that one alone is asked.
ghost use Rattle.std.specs.Prelude.{◌≡◌, ◌%◌, ◌<◌, length, get_or};
ghost use Rattle.base.specs.common.Decide.{Says};
ghost use Rattle.plane.specs.points.Flat.{points};
ghost use Rattle.walks.specs.neighbours.Cursor.{Settled};
ghost use Rattle.cell_builder.specs.turned.Turns.{HullBlank, Retries, ClosedRetry};
ghost use Rattle.cell_builder.specs.turned.laws.IdleSites.{walk_end};

use base::numbers::{EMPTY, wide};
use clipping::edges::misses;
use mesh::{end_site, turn};
use plane::boxes::BoundingBox;

// The last half-edge of the walk from s.
fn walk_end(halfedges: &[u32], s: u32) -> usize
    requires { (length halfedges.now % 3 ≡ 0) × (s < length halfedges.now) × Settled halfedges.now s s }
    ensures { (result ≡ walk_end halfedges.now s) × (result < length halfedges.now) }
{
    let mut last = wide(s);
    let mut e = wide(s);
    while e < halfedges.len() {
        last = e;
        e = wide(turn(halfedges, s, e));
    }
    last
}

// Whether a site is on the hull and has no cell.
fn hull_blank(halfedges: &[u32], table: &[u32], indexes: &[u32], offsets: &[u32], site: u32) -> bool
    requires { (site < length table.now) × (get_or table.now site 0 < length halfedges.now) × (site < length offsets.now) × (get_or offsets.now site 0 < length indexes.now) }
    ensures { Says result (HullBlank halfedges.now table.now indexes.now offsets.now site) }
{
    let base = wide(offsets[wide(site)]);
    if indexes[base] != EMPTY {
        return false;
    }
    let t = wide(table[wide(site)]);
    halfedges[t] == EMPTY
}

// Whether half-edge e ends at a hull site without a cell and the edge that closes its ring misses the box.
pub fn closes_outside(
    triangles: &[u32],
    halfedges: &[u32],
    table: &[u32],
    vertices: &[f64],
    indexes: &[u32],
    offsets: &[u32],
    count: usize,
    bounds: BoundingBox,
    e: usize,
) -> bool
    requires { Retries triangles.now halfedges.now table.now indexes.now offsets.now count (length vertices.now) e }
    ensures { Says result (ClosedRetry triangles.now halfedges.now table.now indexes.now offsets.now bounds
        (points count vertices.now) e) }
{
    let site = end_site(triangles, e);
    if !hull_blank(halfedges, table, indexes, offsets, site) {
        return false;
    }
    let last = walk_end(halfedges, e as u32);
    misses(vertices, count, bounds, (e / 3) as u32, (last / 3) as u32)
}
