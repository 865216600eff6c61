// Meshes on the grid: whole coordinates of magnitude at most 8,192. The exact check, the check with the hull, and the same sites as floats for every other call.
ghost use Rattle.grid.specs.check.Promise.{grid_mesh};
ghost use Rattle.voronoi.specs.Grids.{GridCheck, GridNearest, SitesOfGrid};

use base::refusal::number;

// After 1, 2 and 22 the work slice is as it was, after 7 to 10 `EMPTY` throughout, after 0 it has the leftmost table, then `EMPTY`. The two numbers are
// always written, `EMPTY` when refused.
pub fn voronoi_grid_check(
    grid: &[i32],
    triangles: &[u32],
    halfedges: &[u32],
    hull: &[u32],
    work: &mut [u32],
    kind: &mut u32,
    place: &mut u32,
) -> u32
    ensures { GridCheck (grid_mesh grid.now triangles.now halfedges.now hull.now)
        work.old work.new result kind.new place.new }
{
    grid::check::check_grid_lent(grid, triangles, halfedges, hull, work, kind, place)
}

// The work slice as after `voronoi_grid_check`. The three numbers are always written, `EMPTY` when refused.
pub fn voronoi_grid_nearest(
    grid: &[i32],
    triangles: &[u32],
    halfedges: &[u32],
    hull: &[u32],
    work: &mut [u32],
    kind: &mut u32,
    place: &mut u32,
    unused: &mut u32,
) -> u32
    ensures { GridNearest (grid_mesh grid.now triangles.now halfedges.now hull.now)
        work.old work.new result kind.new place.new unused.new }
{
    grid::nearest::check_nearest_lent(grid, triangles, halfedges, hull, work, kind, place, unused)
}

// After 1, 2 and 22 the slice is as it was; after 0 it has the floats, then +0.
pub fn voronoi_grid_sites(grid: &[i32], sites: &mut [f64]) -> u32
    ensures { SitesOfGrid grid.now sites.old sites.new result }
{
    number(grid::floats::grid_sites(grid, sites))
}
