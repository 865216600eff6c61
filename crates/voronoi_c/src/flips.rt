// The exports of module flips of crate voronoi, which says what each does.
ghost use Rattle.flipping.specs.call.Flips.{flip_lists};
ghost use Rattle.voronoi.specs.Flips.{Flip};

#[unsafe(no_mangle)]
pub extern "C" fn voronoi_flip(
    site_count: u32,
    triangles: &mut [u32],
    halfedges: &mut [u32],
    hull: &[u32],
    table: &mut [u32],
    work: &mut [u32],
    halfedge: u32,
) -> u32
    ensures { Flip site_count hull.now halfedge
        (flip_lists triangles.old halfedges.old table.old work.old)
        (flip_lists triangles.new halfedges.new table.new work.new) result }
{
    voronoi::flips::voronoi_flip(
        site_count, triangles, halfedges, hull, table, work, halfedge,
    )
}
