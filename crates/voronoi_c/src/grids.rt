// The exports of module grids of crate voronoi, which says what each does.
ghost use Rattle.grid.specs.check.Promise.{grid_mesh};
ghost use Rattle.voronoi.specs.Grids.{GridCheck, GridNearest, SitesOfGrid};

#[unsafe(no_mangle)]
pub extern "C" fn voronoi_grid_check(
    grid: &[i32],
    triangles: &[u32],
    halfedges: &[u32],
    hull: &[u32],
    work: &mut [u32],
    kind: &mut u32,
    place: &mut u32,
) -> u32
    ensures { GridCheck (grid_mesh grid.now triangles.now halfedges.now hull.now)
        work.old work.new result kind.new place.new }
{
    voronoi::grids::voronoi_grid_check(grid, triangles, halfedges, hull, work, kind, place)
}

#[unsafe(no_mangle)]
pub extern "C" fn voronoi_grid_nearest(
    grid: &[i32],
    triangles: &[u32],
    halfedges: &[u32],
    hull: &[u32],
    work: &mut [u32],
    kind: &mut u32,
    place: &mut u32,
    unused: &mut u32,
) -> u32
    ensures { GridNearest (grid_mesh grid.now triangles.now halfedges.now hull.now)
        work.old work.new result kind.new place.new unused.new }
{
    voronoi::grids::voronoi_grid_nearest(
        grid, triangles, halfedges, hull, work, kind, place, unused,
    )
}

#[unsafe(no_mangle)]
pub extern "C" fn voronoi_grid_sites(grid: &[i32], sites: &mut [f64]) -> u32
    ensures { SitesOfGrid grid.now sites.old sites.new result }
{
    voronoi::grids::voronoi_grid_sites(grid, sites)
}
