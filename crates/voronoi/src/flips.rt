// One edge flipped in place: triangles, half-edges and the leftmost table as they are lent.
ghost use Rattle.flipping.specs.call.Flips.{flip_lists};
ghost use Rattle.voronoi.specs.Flips.{Flip};

use base::refusal::number;

// Refused, triangles, half-edges and table are unchanged; the work slice is unchanged after 1 and 2 and `EMPTY` throughout after 7 to 10 and 23.
pub fn voronoi_flip(
    site_count: u32,
    triangles: &mut [u32],
    halfedges: &mut [u32],
    hull: &[u32],
    table: &mut [u32],
    work: &mut [u32],
    halfedge: u32,
) -> u32
    ensures { Flip site_count hull.now halfedge
        (flip_lists triangles.old halfedges.old table.old work.old)
        (flip_lists triangles.new halfedges.new table.new work.new) result }
{
    number(flipping::call::flip(
        site_count, triangles, halfedges, hull, table, work, halfedge,
    ))
}
