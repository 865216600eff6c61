// The builds, and the cells that they leave. After 1 to 6 nothing lent changes, after 7 to 14 every lent slice is cleared over its whole length
// (indexes EMPTY, floats +0); after 0 each holds what the build made, then EMPTY or +0 to its end.
ghost use Rattle.plane.specs.points.Plane.{at};
ghost use Rattle.plane.specs.given.Given.{by_size};
ghost use Rattle.mesh.specs.Accepted.{mesh};
ghost use Rattle.admission.specs.Slices.{slices};
ghost use Rattle.voronoi.specs.Builds.{Build, Cell, CellPart};

// The cells of all sites, clipped to the box of the center (cx, cy), width and height.
pub fn voronoi_build(
    cx: f64,
    cy: f64,
    width: f64,
    height: f64,
    sites: &[f64],
    triangles: &[u32],
    halfedges: &[u32],
    hull: &[u32],
    work: &mut [u32],
    vertices: &mut [f64],
    indexes: &mut [u32],
    offsets: &mut [u32],
    counts: &mut [u32],
) -> u32
    ensures { Build (mesh sites.now triangles.now halfedges.now hull.now) (by_size (at cx cy) width height)
        (slices work.old vertices.old indexes.old offsets.old counts.old)
        (slices work.new vertices.new indexes.new offsets.new counts.new) result }
{
    let given = plane::given::by_size(cx, cy, width, height);
    base::refusal::number(building::build(
        given, sites, triangles, halfedges, hull, work, vertices, indexes, offsets, counts,
    ))
}

// The cell of a site: the part of the index list between its two offsets, empty where it is refused; 4, then 16.
pub fn cell<'a>(offsets: &[u32], indexes: &'a [u32], site: u32, number: &mut u32) -> &'a [u32]
    ensures { CellPart offsets.now indexes.now site result.now number.new }
{
    match cell_query::cell(offsets, indexes, site) {
        Ok(part) => {
            *number = 0;
            part
        }
        Err(refusal) => {
            *number = u32::from(refusal);
            &indexes[..0]
        }
    }
}

// The same as numbers: where the cell starts in the index list, and its length.
pub fn voronoi_cell(
    offsets: &[u32],
    indexes: &[u32],
    site: u32,
    start: &mut u32,
    length: &mut u32,
) -> u32
    ensures { Cell offsets.now indexes.now site start.new length.new result }
{
    match cell_query::place(offsets, indexes, site) {
        Ok(place) => {
            *start = place.start;
            *length = place.length;
            0
        }
        Err(refusal) => {
            *start = 0;
            *length = 0;
            u32::from(refusal)
        }
    }
}
