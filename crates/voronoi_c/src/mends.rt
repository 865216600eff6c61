// The exports of module mends of crate voronoi, which says what each does.
ghost use Rattle.mesh.specs.Accepted.{mesh};
ghost use Rattle.mending.specs.slices.Lent.{lent};
ghost use Rattle.voronoi.specs.Mends.{Mend};

#[unsafe(no_mangle)]
pub extern "C" fn voronoi_mend(
    sites: &[f64],
    triangles: &[u32],
    halfedges: &[u32],
    hull: &[u32],
    work: &mut [u32],
    pairs: &mut [u32],
    mended: &mut [u32],
    changes: &mut [u32],
    hull_length: &mut u32,
    pair_changes: &mut u32,
    hull_changes: &mut u32,
) -> u32
    ensures { Mend (mesh sites.now triangles.now halfedges.now hull.now)
        (lent work.old pairs.old mended.old changes.old)
        (lent work.new pairs.new mended.new changes.new) result
        hull_length.new pair_changes.new hull_changes.new }
{
    voronoi::mends::voronoi_mend(
        sites,
        triangles,
        halfedges,
        hull,
        work,
        pairs,
        mended,
        changes,
        hull_length,
        pair_changes,
        hull_changes,
    )
}
