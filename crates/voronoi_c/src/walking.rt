// The exports of module walking of crate voronoi, which says what each does.
ghost use Rattle.plane.specs.points.Plane.{at};
ghost use Rattle.mesh.specs.Accepted.{mesh};
ghost use Rattle.voronoi.specs.Walks.{Walk, Neighbours, ClippedNeighbours, Path, SharedEdge, CellsShareEdge};

#[unsafe(no_mangle)]
pub extern "C" fn voronoi_walk(
    sites: &[f64],
    triangles: &[u32],
    halfedges: &[u32],
    hull: &[u32],
    site: u32,
    work: &mut [u32],
    out: &mut [u32],
    count: &mut u32,
    ended: &mut u32,
) -> u32
    ensures { Walk (mesh sites.now triangles.now halfedges.now hull.now) site work.old
        work.new out.old out.new count.new ended.new result }
{
    voronoi::walking::voronoi_walk(
        sites, triangles, halfedges, hull, site, work, out, count, ended,
    )
}

#[unsafe(no_mangle)]
pub extern "C" fn voronoi_neighbours(
    sites: &[f64],
    triangles: &[u32],
    halfedges: &[u32],
    hull: &[u32],
    site: u32,
    work: &mut [u32],
    out: &mut [u32],
    count: &mut u32,
    ended: &mut u32,
) -> u32
    ensures { Neighbours (mesh sites.now triangles.now halfedges.now hull.now) site work.old
        work.new out.old out.new count.new ended.new result }
{
    voronoi::walking::voronoi_neighbours(
        sites, triangles, halfedges, hull, site, work, out, count, ended,
    )
}

#[unsafe(no_mangle)]
pub extern "C" fn voronoi_clipped_neighbours(
    sites: &[f64],
    triangles: &[u32],
    halfedges: &[u32],
    hull: &[u32],
    offsets: &[u32],
    indexes: &[u32],
    site: u32,
    work: &mut [u32],
    out: &mut [u32],
    count: &mut u32,
    ended: &mut u32,
) -> u32
    ensures { ClippedNeighbours (mesh sites.now triangles.now halfedges.now hull.now)
        offsets.now indexes.now site
        work.old work.new out.old out.new count.new ended.new result }
{
    voronoi::walking::voronoi_clipped_neighbours(
        sites, triangles, halfedges, hull, offsets, indexes, site, work, out, count, ended,
    )
}

#[unsafe(no_mangle)]
pub extern "C" fn voronoi_path(
    sites: &[f64],
    triangles: &[u32],
    halfedges: &[u32],
    hull: &[u32],
    site: u32,
    x: f64,
    y: f64,
    work: &mut [u32],
    out: &mut [u32],
    count: &mut u32,
    ended: &mut u32,
) -> u32
    ensures { Path (mesh sites.now triangles.now halfedges.now hull.now) site (at x y)
        work.old work.new out.old out.new count.new ended.new result }
{
    voronoi::walking::voronoi_path(
        sites, triangles, halfedges, hull, site, x, y, work, out, count, ended,
    )
}

#[unsafe(no_mangle)]
pub extern "C" fn voronoi_shared_edge(
    sites: &[f64],
    triangles: &[u32],
    halfedges: &[u32],
    hull: &[u32],
    a: u32,
    b: u32,
    work: &mut [u32],
    edge: &mut u32,
) -> u32
    ensures { SharedEdge (mesh sites.now triangles.now halfedges.now hull.now) a b
        work.old work.new edge.new result }
{
    voronoi::walking::voronoi_shared_edge(sites, triangles, halfedges, hull, a, b, work, edge)
}

#[unsafe(no_mangle)]
pub extern "C" fn voronoi_cells_share_edge(
    offsets: &[u32],
    indexes: &[u32],
    a: u32,
    b: u32,
    yes: &mut u32,
) -> u32
    ensures { CellsShareEdge offsets.now indexes.now a b yes.new result }
{
    voronoi::walking::voronoi_cells_share_edge(offsets, indexes, a, b, yes)
}
