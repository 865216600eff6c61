// The pieces by cutting. After 1 to 6 nothing lent changes, after 7 to 11 and 25 every lent slice is cleared over its whole length (indexes EMPTY, floats +0); after 0 each holds
// the pieces, then EMPTY or +0 to its end. `count` is how many vertices there are, 0 where it is refused.
ghost use Rattle.std.specs.Prelude.{◌≡◌};
ghost use Rattle.base.specs.refusal.Number.{answer_number};
ghost use Rattle.plane.specs.points.Plane.{at};
ghost use Rattle.plane.specs.given.Given.{by_size, by_edges};
ghost use Rattle.mesh.specs.Accepted.{mesh};
ghost use Rattle.cutting_calls.specs.cut_admission.CutSlices.{cut_slices};
ghost use Rattle.cutting_calls.specs.call.Promise.{count_of};
ghost use Rattle.voronoi.specs.Cuts.{Cut};

use base::refusal::Refusal;

// The number; the count in the lent number, none where it is refused.
fn put_count(done: Result<u32, Refusal>, count: &mut u32) -> u32
    ensures { (result ≡ answer_number done) × (count.new ≡ count_of done) }
{
    match done {
        Ok(many) => {
            *count = many;
            0
        }
        Err(refusal) => {
            *count = 0;
            u32::from(refusal)
        }
    }
}

// The pieces of all sites, cut by the sides of the box of the center (cx, cy), width and height.
pub fn voronoi_cut(
    cx: f64,
    cy: f64,
    width: f64,
    height: f64,
    sites: &[f64],
    triangles: &[u32],
    halfedges: &[u32],
    hull: &[u32],
    work: &mut [u32],
    vertices: &mut [f64],
    indexes: &mut [u32],
    offsets: &mut [u32],
    count: &mut u32,
) -> u32
    ensures { Cut (mesh sites.now triangles.now halfedges.now hull.now) (by_size (at cx cy) width height)
        (cut_slices work.old vertices.old indexes.old offsets.old)
        (cut_slices work.new vertices.new indexes.new offsets.new) result count.new }
{
    let given = plane::given::by_size(cx, cy, width, height);
    let done = cutting_calls::call::cut(
        given, sites, triangles, halfedges, hull, work, vertices, indexes, offsets,
    );
    put_count(done, count)
}

// The same in the box of four edges.
pub fn voronoi_cut_by_edges(
    left: f64,
    top: f64,
    right: f64,
    bottom: f64,
    sites: &[f64],
    triangles: &[u32],
    halfedges: &[u32],
    hull: &[u32],
    work: &mut [u32],
    vertices: &mut [f64],
    indexes: &mut [u32],
    offsets: &mut [u32],
    count: &mut u32,
) -> u32
    ensures { Cut (mesh sites.now triangles.now halfedges.now hull.now) (by_edges left top right bottom)
        (cut_slices work.old vertices.old indexes.old offsets.old)
        (cut_slices work.new vertices.new indexes.new offsets.new) result count.new }
{
    let given = plane::given::by_edges(left, top, right, bottom);
    let done = cutting_calls::call::cut(
        given, sites, triangles, halfedges, hull, work, vertices, indexes, offsets,
    );
    put_count(done, count)
}
