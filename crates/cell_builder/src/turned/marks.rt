// Which cells are made last. A mark stands on every eight triangles among which is the table entry of a site with a circumcenter outside, or a half-edge of a hull site
// without a cell.
ghost use Rattle.std.specs.Prelude.{◌≡◌, ◌⊎◌, ◌≢◌, ◌+◌, ◌*◌, ◌/◌, ◌≤◌, ◌<◌, length, get_or, set};
ghost use Rattle.base.specs.common.Decide.{Says};
ghost use Rattle.base.specs.numbers.Numbers.{EMPTY};
ghost use Rattle.plane.specs.points.Flat.{points};
ghost use Rattle.mesh.specs.Mesh.{Paired};
ghost use Rattle.cell_builder.specs.turned.Marks.{Markable, Covers, MadeLast, MarksStay, WalkMarked};
ghost use Rattle.cell_builder.specs.turned.Turns.{HullWalks};
ghost use Rattle.cell_builder.specs.turned.laws.Marking.{MarkingHull};

use base::numbers::{EMPTY, wide};
use clipping::ring::in_box;
use mesh::turn;
use plane::boxes::BoundingBox;

// Marks the table entry of a site.
fn mark_site(table: &[u32], site: u32, marks: &mut [u8; 16384])
    requires { (site < length table.now) × (get_or table.now site 0 < 393216) }
    ensures { marks.new ≡ set marks.old (get_or table.now site 0 / 24) 1 }
{
    let t = wide(table[wide(site)]);
    marks[t / 24] = 1;
}

// Marks the table entries of the three sites of triangle t, if its circumcenter is outside.
fn mark_triangle(
    triangles: &[u32],
    table: &[u32],
    vertices: &[f64],
    count: usize,
    bounds: BoundingBox,
    marks: &mut [u8; 16384],
    t: usize,
)
    requires { Markable triangles.now table.now count (length vertices.now) × (t < length triangles.now / 3) }
    ensures { length marks.old ≡ 16384 → Covers bounds (points count vertices.now) triangles.now table.now marks.old (3 * t)
        → (length marks.new ≡ 16384) × Covers bounds (points count vertices.now) triangles.now table.now marks.new (3 * (t + 1)) }
{
    if in_box(vertices, count, bounds, triangles.len() / 3, t as u32) {
        return;
    }
    mark_site(table, triangles[3 * t], marks);
    mark_site(table, triangles[3 * t + 1], marks);
    mark_site(table, triangles[3 * t + 2], marks);
}

// Marks the table entries of all sites with a circumcenter outside.
pub fn mark_outside(
    triangles: &[u32],
    table: &[u32],
    vertices: &[f64],
    count: usize,
    bounds: BoundingBox,
    marks: &mut [u8; 16384],
)
    requires { Markable triangles.now table.now count (length vertices.now) }
    ensures { length marks.old ≡ 16384 → (length marks.new ≡ 16384)
        × Covers bounds (points count vertices.now) triangles.now table.now marks.new (length triangles.now) }
{
    for t in 0..triangles.len() / 3 {
        mark_triangle(triangles, table, vertices, count, bounds, marks, t);
    }
}

// Marks the half-edges of the walk from s.
fn mark_walk(triangles: &[u32], halfedges: &[u32], s: u32, marks: &mut [u8; 16384])
    requires { Paired triangles.now halfedges.now × (length halfedges.now ≤ 393216) }
    ensures { length marks.old ≡ 16384
        → (length marks.new ≡ 16384) × MarksStay marks.old marks.new × WalkMarked halfedges.now marks.new s }
{
    let mut e = wide(s);
    while e < halfedges.len() {
        marks[e / 24] = 1;
        e = wide(turn(halfedges, s, e));
    }
}

// Marks the half-edges that end at a site without a cell.
fn mark_empty(
    triangles: &[u32],
    halfedges: &[u32],
    table: &[u32],
    indexes: &[u32],
    offsets: &[u32],
    marks: &mut [u8; 16384],
    site: u32,
)
    requires { Paired triangles.now halfedges.now × (length halfedges.now ≤ 393216) × (site < length table.now) × (site < length offsets.now)
        × (get_or offsets.now site 0 < length indexes.now) }
    ensures { length marks.old ≡ 16384 → (length marks.new ≡ 16384) × MarksStay marks.old marks.new
        × ((get_or indexes.now (get_or offsets.now site 0) 0 ≢ EMPTY) ⊎ WalkMarked halfedges.now marks.new (get_or table.now site 0)) }
{
    let base = wide(offsets[wide(site)]);
    if indexes[base] != EMPTY {
        return;
    }
    mark_walk(triangles, halfedges, table[wide(site)], marks);
}

// Marks the half-edges that end at hull sites without a cell.
pub fn mark_hulls(
    triangles: &[u32],
    halfedges: &[u32],
    hull: &[u32],
    table: &[u32],
    indexes: &[u32],
    offsets: &[u32],
    marks: &mut [u8; 16384],
)
    requires { HullWalks triangles.now halfedges.now hull.now table.now indexes.now offsets.now }
    ensures { length marks.old ≡ 16384
        → MarkingHull halfedges.now hull.now table.now indexes.now offsets.now marks.old
        marks.new (length hull.now) }
{
    for site in hull {
        mark_empty(triangles, halfedges, table, indexes, offsets, marks, *site);
    }
}

// Whether the cell of site s is made last.
pub fn early(halfedges: &[u32], table: &[u32], marks: &[u8; 16384], s: usize) -> bool
    requires { (s < length table.now) × (length halfedges.now ≤ 393216) }
    ensures { Says result (MadeLast halfedges.now table.now marks.now s) }
{
    let t = wide(table[s]);
    if t >= halfedges.len() {
        return false;
    }
    if marks[t / 24] != 0 {
        return false;
    }
    halfedges[t] != EMPTY
}
