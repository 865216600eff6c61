// For all gauges at once: each call checks the mesh once.
ghost use Rattle.mesh.specs.Accepted.{mesh};
ghost use Rattle.voronoi.specs.Bulk.{AllNeighbours, EndsOfPaths};

use base::refusal::number;

// The lists of `voronoi_clipped_neighbours` of every site, one after the other, cut by `starts`; with no cells lent those of `voronoi_neighbours`.
pub fn voronoi_all_neighbours(
    sites: &[f64],
    triangles: &[u32],
    halfedges: &[u32],
    hull: &[u32],
    offsets: &[u32],
    indexes: &[u32],
    work: &mut [u32],
    starts: &mut [u32],
    out: &mut [u32],
) -> u32
    ensures { AllNeighbours (mesh sites.now triangles.now halfedges.now hull.now)
        offsets.now indexes.now work.old work.new starts.old starts.new out.old out.new result }
{
    number(queries::bulk_neighbours::all_neighbours(
        sites, triangles, halfedges, hull, offsets, indexes, work, starts, out,
    ))
}

// The last site of the path to each point, the first path from `site`, each next from the last end.
pub fn voronoi_ends(
    sites: &[f64],
    triangles: &[u32],
    halfedges: &[u32],
    hull: &[u32],
    site: u32,
    points: &[f64],
    work: &mut [u32],
    out: &mut [u32],
) -> u32
    ensures { EndsOfPaths (mesh sites.now triangles.now halfedges.now hull.now) site points.now
        work.old work.new out.old out.new result }
{
    number(queries::bulk_ends::ends(sites, triangles, halfedges, hull, site, points, work, out))
}
