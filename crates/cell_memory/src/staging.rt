// The ring of a site, staged in the index list: the triangles along a walk.
ghost use Rattle.std.specs.Prelude.{[], ◌∷◌, ◌++◌, ◌+◌, ◌≤◌, length, drop};
ghost use Rattle.mesh.specs.Mesh.{whole_of, Paired};
ghost use Rattle.definition.specs.Build.{ring_from, hull_ring};
ghost use Rattle.cell_memory.specs.staging.Staging.{Staged, Stages};

use base::numbers::wide;
use mesh::turn;

// Writes the triangles along the walk from half-edge s, from `at` on. Answers the place after them.
pub fn stage_ring(
    triangles: &[u32],
    halfedges: &[u32],
    s: u32,
    indexes: &mut [u32],
    at: usize,
) -> usize
    requires { Paired triangles.now halfedges.now × (at + length (whole_of halfedges.now s) ≤ length indexes.old) }
    ensures { Staged (ring_from halfedges.now s) at indexes.old indexes.new result }
{
    let mut e = wide(s);
    let mut n = at;
    while e < halfedges.len() {
        indexes[n] = (e / 3) as u32;
        n += 1;
        e = wide(turn(halfedges, s, e));
    }
    n
}

// The ring of the first hull site: the extension after it, the one before it, then the walk.
fn stage_first(
    triangles: &[u32],
    halfedges: &[u32],
    e: u32,
    indexes: &mut [u32],
    at: usize,
    after: u32,
    before: u32,
) -> usize
    requires { Paired triangles.now halfedges.now × (at + length (whole_of halfedges.now e) + 2 ≤ length indexes.old) }
    ensures { Staged (after ∷ before ∷ ring_from halfedges.now e) at indexes.old indexes.new result }
{
    indexes[at] = after;
    indexes[at + 1] = before;
    stage_ring(triangles, halfedges, e, indexes, at + 2)
}

// The ring of another hull site: the extension before it, the walk, the one after it.
fn stage_later(
    triangles: &[u32],
    halfedges: &[u32],
    e: u32,
    indexes: &mut [u32],
    at: usize,
    before: u32,
    after: u32,
) -> usize
    requires { Paired triangles.now halfedges.now × (at + length (whole_of halfedges.now e) + 2 ≤ length indexes.old) }
    ensures { Staged (before ∷ ring_from halfedges.now e ++ after ∷ []) at indexes.old indexes.new result }
{
    indexes[at] = before;
    let end = stage_ring(triangles, halfedges, e, indexes, at + 1);
    indexes[end] = after;
    end + 1
}

// The ring of the site at hull place i, whose extensions' numbers stand from `xs` on, after the stage.
pub fn stage_hull_ring(
    triangles: &[u32],
    halfedges: &[u32],
    hull: &[u32],
    table: &[u32],
    indexes: &mut [u32],
    at: usize,
    xs: usize,
    i: usize,
) -> usize
    requires { Stages triangles.now halfedges.now hull.now table.now indexes.old at xs i }
    ensures { Staged (hull_ring halfedges.now hull.now table.now (drop xs indexes.old) i) at indexes.old indexes.new result }
{
    let e = table[wide(hull[i])];
    if i == 0 {
        let after = indexes[xs];
        let before = indexes[xs + (hull.len() - 1)];
        return stage_first(triangles, halfedges, e, indexes, at, after, before);
    }
    let before = indexes[xs + (i - 1)];
    let after = indexes[xs + i];
    stage_later(triangles, halfedges, e, indexes, at, before, after)
}
