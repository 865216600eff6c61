// The exports of module builds of crate voronoi, which says what each does.
ghost use Rattle.plane.specs.points.Plane.{at};
ghost use Rattle.plane.specs.given.Given.{by_size};
ghost use Rattle.mesh.specs.Accepted.{mesh};
ghost use Rattle.admission.specs.Slices.{slices};
ghost use Rattle.voronoi.specs.Builds.{Build, Cell};

#[unsafe(no_mangle)]
pub extern "C" fn voronoi_build(
    cx: f64,
    cy: f64,
    width: f64,
    height: f64,
    sites: &[f64],
    triangles: &[u32],
    halfedges: &[u32],
    hull: &[u32],
    work: &mut [u32],
    vertices: &mut [f64],
    indexes: &mut [u32],
    offsets: &mut [u32],
    counts: &mut [u32],
) -> u32
    ensures { Build (mesh sites.now triangles.now halfedges.now hull.now) (by_size (at cx cy) width height)
        (slices work.old vertices.old indexes.old offsets.old counts.old)
        (slices work.new vertices.new indexes.new offsets.new counts.new) result }
{
    voronoi::builds::voronoi_build(
        cx, cy, width, height, sites, triangles, halfedges, hull, work, vertices, indexes, offsets,
        counts,
    )
}

#[unsafe(no_mangle)]
pub extern "C" fn voronoi_cell(
    offsets: &[u32],
    indexes: &[u32],
    site: u32,
    start: &mut u32,
    length: &mut u32,
) -> u32
    ensures { Cell offsets.now indexes.now site start.new length.new result }
{
    voronoi::builds::voronoi_cell(offsets, indexes, site, start, length)
}
