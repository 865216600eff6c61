// Points and the box. A box is its center, width and height (in module edges: its four edges); 3 is tried on it, then 6 on each point.
// A lent number is always written: 0 (a side: EMPTY) where the call refuses.
ghost use Rattle.std.specs.Prelude.{◌≡◌};
ghost use Rattle.plane.specs.points.Plane.{at, near_of};
ghost use Rattle.plane.specs.given.Given.{by_size};
ghost use Rattle.plane.specs.lines.Line.{line_of};
ghost use Rattle.plane.specs.rays.Ray.{ray_of};
ghost use Rattle.plane_calls.specs.Plane.{bit};
ghost use Rattle.voronoi.specs.Plane.{Dist2, Circumcenter, Centroid, Edges, Corners, Inside, ExclusivelyInside, WhichEdge, Meets};

use base::numbers::EMPTY;
use plane::points::Point;
use plane_calls::{NO_EDGES, NOWHERE, number, yes};

// Whether a and b are within 2^-50 of each other, by the computed difference: 1 or 0. A NaN is within no tolerance.
pub fn voronoi_abs_diff_eq(a: f64, b: f64) -> u32
    ensures { result ≡ bit (near_of a b) }
{
    plane_calls::abs_diff_eq(a, b)
}

// The squared distance.
pub fn voronoi_dist2(ax: f64, ay: f64, bx: f64, by: f64, d: &mut f64) -> u32
    ensures { Dist2 (at ax ay) (at bx by) result d.new }
{
    let a = Point { x: ax, y: ay };
    let b = Point { x: bx, y: by };
    let answer = plane_calls::dist2(a, b);
    *d = answer.unwrap_or(0.0);
    number(answer)
}

// The circumcenter; after 6, 11.
pub fn voronoi_circumcenter(
    ax: f64,
    ay: f64,
    bx: f64,
    by: f64,
    cx: f64,
    cy: f64,
    x: &mut f64,
    y: &mut f64,
) -> u32
    ensures { Circumcenter (at ax ay) (at bx by) (at cx cy) result x.new y.new }
{
    let a = Point { x: ax, y: ay };
    let b = Point { x: bx, y: by };
    let c = Point { x: cx, y: cy };
    let answer = plane_calls::circumcenter(a, b, c);
    let p = answer.unwrap_or(Point { x: 0.0, y: 0.0 });
    *x = p.x;
    *y = p.y;
    number(answer)
}

// The centroid of 1 to 65,536 points; 1, then 6.
pub fn voronoi_centroid(points: &[f64], x: &mut f64, y: &mut f64) -> u32
    ensures { Centroid points.now result x.new y.new }
{
    let answer = plane_calls::centroid(points);
    let p = answer.unwrap_or(Point { x: 0.0, y: 0.0 });
    *x = p.x;
    *y = p.y;
    number(answer)
}

// The box's edges, and its width and height recomputed from them.
pub fn voronoi_box(
    cx: f64,
    cy: f64,
    width: f64,
    height: f64,
    left: &mut f64,
    top: &mut f64,
    right: &mut f64,
    bottom: &mut f64,
    across: &mut f64,
    down: &mut f64,
) -> u32
    ensures { Edges (by_size (at cx cy) width height) result left.new top.new right.new bottom.new
        across.new down.new }
{
    let given = plane::given::by_size(cx, cy, width, height);
    let answer = plane_calls::box_edges(given);
    let edges = answer.unwrap_or(NO_EDGES);
    *left = edges.left;
    *top = edges.top;
    *right = edges.right;
    *bottom = edges.bottom;
    *across = edges.across;
    *down = edges.down;
    number(answer)
}

// The corners, top left, bottom left, bottom right, top right, x and y each, into a slice of 8 or more, whose rest is cleared; 2, then 3.
pub fn voronoi_corners(cx: f64, cy: f64, width: f64, height: f64, out: &mut [f64]) -> u32
    ensures { Corners (by_size (at cx cy) width height) out.old result out.new }
{
    let given = plane::given::by_size(cx, cy, width, height);
    number(plane_calls::corners(given, out))
}

// Whether (x, y) is inside the box or on its edges: 1 or 0.
pub fn voronoi_is_inside(
    cx: f64,
    cy: f64,
    width: f64,
    height: f64,
    x: f64,
    y: f64,
    inside: &mut u32,
) -> u32
    ensures { Inside (by_size (at cx cy) width height) (at x y) result inside.new }
{
    let given = plane::given::by_size(cx, cy, width, height);
    let p = Point { x: x, y: y };
    let answer = plane_calls::is_inside(given, p);
    *inside = yes(answer.unwrap_or(false));
    number(answer)
}

// The same, and within tolerance of no side's line.
pub fn voronoi_is_exclusively_inside(
    cx: f64,
    cy: f64,
    width: f64,
    height: f64,
    x: f64,
    y: f64,
    inside: &mut u32,
) -> u32
    ensures { ExclusivelyInside (by_size (at cx cy) width height) (at x y) result inside.new }
{
    let given = plane::given::by_size(cx, cy, width, height);
    let p = Point { x: x, y: y };
    let answer = plane_calls::is_exclusively_inside(given, p);
    *inside = yes(answer.unwrap_or(false));
    number(answer)
}

// The side that (x, y) is on: top 0, bottom 2, right 3, left 1, the first within tolerance; EMPTY for none.
pub fn voronoi_which_edge(
    cx: f64,
    cy: f64,
    width: f64,
    height: f64,
    x: f64,
    y: f64,
    side: &mut u32,
) -> u32
    ensures { WhichEdge (by_size (at cx cy) width height) (at x y) result side.new }
{
    let given = plane::given::by_size(cx, cy, width, height);
    let p = Point { x: x, y: y };
    let answer = plane_calls::which_edge(given, p);
    *side = answer.unwrap_or(EMPTY);
    number(answer)
}

// Where the line through two points meets the box: how many points, 0 to 2, and their coordinates, 0 where there is none.
pub fn voronoi_intersect_line(
    cx: f64,
    cy: f64,
    width: f64,
    height: f64,
    px: f64,
    py: f64,
    qx: f64,
    qy: f64,
    count: &mut u32,
    x: &mut f64,
    y: &mut f64,
    u: &mut f64,
    v: &mut f64,
) -> u32
    ensures { Meets line_of (by_size (at cx cy) width height) (at px py) (at qx qy) result
        count.new x.new y.new u.new v.new }
{
    let given = plane::given::by_size(cx, cy, width, height);
    let p = Point { x: px, y: py };
    let q = Point { x: qx, y: qy };
    let answer = plane_calls::intersect_line(given, p, q);
    let met = answer.unwrap_or(NOWHERE);
    *count = met.count;
    *x = met.x;
    *y = met.y;
    *u = met.u;
    *v = met.v;
    number(answer)
}

// The same of the ray from (px, py) in the direction (dx, dy), in the ray's order.
pub fn voronoi_project_ray(
    cx: f64,
    cy: f64,
    width: f64,
    height: f64,
    px: f64,
    py: f64,
    dx: f64,
    dy: f64,
    count: &mut u32,
    x: &mut f64,
    y: &mut f64,
    u: &mut f64,
    v: &mut f64,
) -> u32
    ensures { Meets ray_of (by_size (at cx cy) width height) (at px py) (at dx dy) result
        count.new x.new y.new u.new v.new }
{
    let given = plane::given::by_size(cx, cy, width, height);
    let p = Point { x: px, y: py };
    let d = Point { x: dx, y: dy };
    let answer = plane_calls::project_ray(given, p, d);
    let met = answer.unwrap_or(NOWHERE);
    *count = met.count;
    *x = met.x;
    *y = met.y;
    *u = met.u;
    *v = met.v;
    number(answer)
}
