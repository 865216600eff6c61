// Mending a hand-edited mesh: sites and triangles are kept, pairs and hull worked out afresh, and what has changed is listed.
ghost use Rattle.mesh.specs.Accepted.{mesh};
ghost use Rattle.mending.specs.slices.Lent.{lent};
ghost use Rattle.voronoi.specs.Mends.{Mend};

// After 1, 2 and 6 no slice changes; after 7, 19, 9 and 10 every one is `EMPTY` throughout. The three numbers are always written, 0 when refused.
pub fn voronoi_mend(
    sites: &[f64],
    triangles: &[u32],
    halfedges: &[u32],
    hull: &[u32],
    work: &mut [u32],
    pairs: &mut [u32],
    mended: &mut [u32],
    changes: &mut [u32],
    hull_length: &mut u32,
    pair_changes: &mut u32,
    hull_changes: &mut u32,
) -> u32
    ensures { Mend (mesh sites.now triangles.now halfedges.now hull.now)
        (lent work.old pairs.old mended.old changes.old)
        (lent work.new pairs.new mended.new changes.new) result
        hull_length.new pair_changes.new hull_changes.new }
{
    mending::mend_lent(
        sites,
        triangles,
        halfedges,
        hull,
        work,
        pairs,
        mended,
        changes,
        hull_length,
        pair_changes,
        hull_changes,
    )
}
