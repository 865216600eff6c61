// The one reason why a mesh is refused, or, where it builds, why the cell of a site is empty or why a neighbour is gone. The five slices are as after a build.
ghost use Rattle.plane.specs.points.Plane.{at};
ghost use Rattle.plane.specs.given.Given.{by_size};
ghost use Rattle.mesh.specs.Accepted.{mesh};
ghost use Rattle.admission.specs.Slices.{slices};
ghost use Rattle.reasons.specs.Reason.{tells};
ghost use Rattle.voronoi.specs.Explanations.{Why};

// asked: 0 nothing, 1 about the site `first`, more about `second` as a neighbour of `first`. The kind and the places are always written.
pub fn voronoi_why(
    cx: f64,
    cy: f64,
    width: f64,
    height: f64,
    sites: &[f64],
    triangles: &[u32],
    halfedges: &[u32],
    hull: &[u32],
    asked: u32,
    first: u32,
    second: u32,
    work: &mut [u32],
    vertices: &mut [f64],
    indexes: &mut [u32],
    offsets: &mut [u32],
    counts: &mut [u32],
    kind: &mut u32,
    place: &mut u32,
    from: &mut u32,
    to: &mut u32,
) -> u32
    ensures { Why (mesh sites.now triangles.now halfedges.now hull.now) (by_size (at cx cy) width height) asked first second
        (slices work.old vertices.old indexes.old offsets.old counts.old)
        (slices work.new vertices.new indexes.new offsets.new counts.new)
        (tells result kind.new place.new from.new to.new) }
{
    let given = plane::given::by_size(cx, cy, width, height);
    reasons::call::why_call(
        given, sites, triangles, halfedges, hull, asked, first, second, work, vertices, indexes,
        offsets, counts, kind, place, from, to,
    )
}
