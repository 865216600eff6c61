// The calls that take a box, with the box given by its four edges: left, top, right, bottom. The box then holds them bit for bit, so that two boxes that share an edge meet.
// 3 for an edge that is not finite, is above 2^101 in magnitude or is out of order; all else is as in the call by center and size.
ghost use Rattle.plane.specs.points.Plane.{at};
ghost use Rattle.plane.specs.given.Given.{by_edges};
ghost use Rattle.plane.specs.lines.Line.{line_of};
ghost use Rattle.plane.specs.rays.Ray.{ray_of};
ghost use Rattle.mesh.specs.Accepted.{mesh};
ghost use Rattle.admission.specs.Slices.{slices};
ghost use Rattle.reasons.specs.Reason.{tells};
ghost use Rattle.voronoi.specs.Plane.{Centered, Corners, Inside, ExclusivelyInside, WhichEdge, Meets};
ghost use Rattle.voronoi.specs.Builds.{Build};
ghost use Rattle.voronoi.specs.Explanations.{Why};
ghost use Rattle.voronoi.specs.Audits.{Audit};

use base::numbers::EMPTY;
use plane::points::Point;
use plane_calls::{NO_CENTER, NOWHERE, number, yes};

// The box's center, left + (right - left) / 2 and down likewise, and its width and height.
pub fn voronoi_box_by_edges(
    left: f64,
    top: f64,
    right: f64,
    bottom: f64,
    cx: &mut f64,
    cy: &mut f64,
    across: &mut f64,
    down: &mut f64,
) -> u32
    ensures { Centered (by_edges left top right bottom) result cx.new cy.new across.new down.new }
{
    let given = plane::given::by_edges(left, top, right, bottom);
    let answer = plane_calls::box_center(given);
    let center = answer.unwrap_or(NO_CENTER);
    *cx = center.x;
    *cy = center.y;
    *across = center.across;
    *down = center.down;
    number(answer)
}

// The corners, top left, bottom left, bottom right, top right, x and y each, into a slice of 8 or more, whose rest is cleared; 2, then 3.
pub fn voronoi_corners_by_edges(
    left: f64,
    top: f64,
    right: f64,
    bottom: f64,
    out: &mut [f64],
) -> u32
    ensures { Corners (by_edges left top right bottom) out.old result out.new }
{
    let given = plane::given::by_edges(left, top, right, bottom);
    number(plane_calls::corners(given, out))
}

// Whether (x, y) is inside the box or on its edges: 1 or 0.
pub fn voronoi_is_inside_by_edges(
    left: f64,
    top: f64,
    right: f64,
    bottom: f64,
    x: f64,
    y: f64,
    inside: &mut u32,
) -> u32
    ensures { Inside (by_edges left top right bottom) (at x y) result inside.new }
{
    let given = plane::given::by_edges(left, top, right, bottom);
    let p = Point { x: x, y: y };
    let answer = plane_calls::is_inside(given, p);
    *inside = yes(answer.unwrap_or(false));
    number(answer)
}

// The same, and within tolerance of no side's line.
pub fn voronoi_is_exclusively_inside_by_edges(
    left: f64,
    top: f64,
    right: f64,
    bottom: f64,
    x: f64,
    y: f64,
    inside: &mut u32,
) -> u32
    ensures { ExclusivelyInside (by_edges left top right bottom) (at x y) result inside.new }
{
    let given = plane::given::by_edges(left, top, right, bottom);
    let p = Point { x: x, y: y };
    let answer = plane_calls::is_exclusively_inside(given, p);
    *inside = yes(answer.unwrap_or(false));
    number(answer)
}

// The side that (x, y) is on: top 0, bottom 2, right 3, left 1, the first within tolerance; EMPTY for none.
pub fn voronoi_which_edge_by_edges(
    left: f64,
    top: f64,
    right: f64,
    bottom: f64,
    x: f64,
    y: f64,
    side: &mut u32,
) -> u32
    ensures { WhichEdge (by_edges left top right bottom) (at x y) result side.new }
{
    let given = plane::given::by_edges(left, top, right, bottom);
    let p = Point { x: x, y: y };
    let answer = plane_calls::which_edge(given, p);
    *side = answer.unwrap_or(EMPTY);
    number(answer)
}

// Where the line through two points meets the box: how many points, 0 to 2, and their coordinates, 0 where there is none.
pub fn voronoi_intersect_line_by_edges(
    left: f64,
    top: f64,
    right: f64,
    bottom: f64,
    px: f64,
    py: f64,
    qx: f64,
    qy: f64,
    count: &mut u32,
    x: &mut f64,
    y: &mut f64,
    u: &mut f64,
    v: &mut f64,
) -> u32
    ensures { Meets line_of (by_edges left top right bottom) (at px py) (at qx qy) result
        count.new x.new y.new u.new v.new }
{
    let given = plane::given::by_edges(left, top, right, bottom);
    let p = Point { x: px, y: py };
    let q = Point { x: qx, y: qy };
    let answer = plane_calls::intersect_line(given, p, q);
    let met = answer.unwrap_or(NOWHERE);
    *count = met.count;
    *x = met.x;
    *y = met.y;
    *u = met.u;
    *v = met.v;
    number(answer)
}

// The same of the ray from (px, py) in the direction (dx, dy), in the ray's order.
pub fn voronoi_project_ray_by_edges(
    left: f64,
    top: f64,
    right: f64,
    bottom: f64,
    px: f64,
    py: f64,
    dx: f64,
    dy: f64,
    count: &mut u32,
    x: &mut f64,
    y: &mut f64,
    u: &mut f64,
    v: &mut f64,
) -> u32
    ensures { Meets ray_of (by_edges left top right bottom) (at px py) (at dx dy) result
        count.new x.new y.new u.new v.new }
{
    let given = plane::given::by_edges(left, top, right, bottom);
    let p = Point { x: px, y: py };
    let d = Point { x: dx, y: dy };
    let answer = plane_calls::project_ray(given, p, d);
    let met = answer.unwrap_or(NOWHERE);
    *count = met.count;
    *x = met.x;
    *y = met.y;
    *u = met.u;
    *v = met.v;
    number(answer)
}

// The cells of all sites, clipped to the box of these edges.
pub fn voronoi_build_by_edges(
    left: f64,
    top: f64,
    right: f64,
    bottom: f64,
    sites: &[f64],
    triangles: &[u32],
    halfedges: &[u32],
    hull: &[u32],
    work: &mut [u32],
    vertices: &mut [f64],
    indexes: &mut [u32],
    offsets: &mut [u32],
    counts: &mut [u32],
) -> u32
    ensures { Build (mesh sites.now triangles.now halfedges.now hull.now) (by_edges left top right bottom)
        (slices work.old vertices.old indexes.old offsets.old counts.old)
        (slices work.new vertices.new indexes.new offsets.new counts.new) result }
{
    let given = plane::given::by_edges(left, top, right, bottom);
    base::refusal::number(building::build(
        given, sites, triangles, halfedges, hull, work, vertices, indexes, offsets, counts,
    ))
}

// asked: 0 nothing, 1 about the site `first`, more about `second` as a neighbour of `first`. The kind and the places are always written.
pub fn voronoi_why_by_edges(
    left: f64,
    top: f64,
    right: f64,
    bottom: f64,
    sites: &[f64],
    triangles: &[u32],
    halfedges: &[u32],
    hull: &[u32],
    asked: u32,
    first: u32,
    second: u32,
    work: &mut [u32],
    vertices: &mut [f64],
    indexes: &mut [u32],
    offsets: &mut [u32],
    counts: &mut [u32],
    kind: &mut u32,
    place: &mut u32,
    from: &mut u32,
    to: &mut u32,
) -> u32
    ensures { Why (mesh sites.now triangles.now halfedges.now hull.now) (by_edges left top right bottom) asked first second
        (slices work.old vertices.old indexes.old offsets.old counts.old)
        (slices work.new vertices.new indexes.new offsets.new counts.new)
        (tells result kind.new place.new from.new to.new) }
{
    let given = plane::given::by_edges(left, top, right, bottom);
    reasons::call::why_call(
        given, sites, triangles, halfedges, hull, asked, first, second, work, vertices, indexes,
        offsets, counts, kind, place, from, to,
    )
}

// The audit of pieces: the five numbers are always written, EMPTY and 0 where it is refused.
pub fn voronoi_audit_by_edges(
    left: f64,
    top: f64,
    right: f64,
    bottom: f64,
    sites: &[f64],
    vertices: &[f64],
    offsets: &[u32],
    indexes: &[u32],
    starts: &[u32],
    others: &[u32],
    bits: u32,
    kind: &mut u32,
    site: &mut u32,
    vertex: &mut u32,
    other: &mut u32,
    missing: &mut f64,
) -> u32
    ensures { Audit (by_edges left top right bottom) sites.now vertices.now offsets.now indexes.now
        starts.now others.now bits result kind.new site.new vertex.new other.new missing.new }
{
    let given = plane::given::by_edges(left, top, right, bottom);
    let t = auditing::audit(
        given, sites, vertices, offsets, indexes, starts, others, bits,
    );
    *kind = t.kind;
    *site = t.site;
    *vertex = t.vertex;
    *other = t.other;
    *missing = t.missing;
    t.number
}
