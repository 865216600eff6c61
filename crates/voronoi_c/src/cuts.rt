// The exports of module cuts of crate voronoi, which says what each does.
ghost use Rattle.plane.specs.points.Plane.{at};
ghost use Rattle.plane.specs.given.Given.{by_size, by_edges};
ghost use Rattle.mesh.specs.Accepted.{mesh};
ghost use Rattle.cutting_calls.specs.cut_admission.CutSlices.{cut_slices};
ghost use Rattle.voronoi.specs.Cuts.{Cut};

#[unsafe(no_mangle)]
pub extern "C" fn voronoi_cut(
    cx: f64,
    cy: f64,
    width: f64,
    height: f64,
    sites: &[f64],
    triangles: &[u32],
    halfedges: &[u32],
    hull: &[u32],
    work: &mut [u32],
    vertices: &mut [f64],
    indexes: &mut [u32],
    offsets: &mut [u32],
    count: &mut u32,
) -> u32
    ensures { Cut (mesh sites.now triangles.now halfedges.now hull.now) (by_size (at cx cy) width height)
        (cut_slices work.old vertices.old indexes.old offsets.old)
        (cut_slices work.new vertices.new indexes.new offsets.new) result count.new }
{
    voronoi::cuts::voronoi_cut(
        cx, cy, width, height, sites, triangles, halfedges, hull, work, vertices, indexes, offsets,
        count,
    )
}

#[unsafe(no_mangle)]
pub extern "C" fn voronoi_cut_by_edges(
    left: f64,
    top: f64,
    right: f64,
    bottom: f64,
    sites: &[f64],
    triangles: &[u32],
    halfedges: &[u32],
    hull: &[u32],
    work: &mut [u32],
    vertices: &mut [f64],
    indexes: &mut [u32],
    offsets: &mut [u32],
    count: &mut u32,
) -> u32
    ensures { Cut (mesh sites.now triangles.now halfedges.now hull.now) (by_edges left top right bottom)
        (cut_slices work.old vertices.old indexes.old offsets.old)
        (cut_slices work.new vertices.new indexes.new offsets.new) result count.new }
{
    voronoi::cuts::voronoi_cut_by_edges(
        left, top, right, bottom, sites, triangles, halfedges, hull, work, vertices, indexes,
        offsets, count,
    )
}
