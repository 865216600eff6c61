// The bodies of the public calls on points and the box. A box is given by its size or by its edges; 3 is tried on it, then 6 on each point.
// A refused call answers its refusal; what is told then beside its number is 0 (a side: EMPTY).

#![tactic(auto)]

ghost use Rattle.std.specs.Prelude.{◌≡◌, false, [], ◌∷◌, ◌≤◌, length};
ghost use Rattle.std.specs.Result.{result_unwrap_or};
ghost use Rattle.base.specs.common.Binary64.{zero};
ghost use Rattle.base.specs.numbers.Numbers as numbers;
ghost use Rattle.base.specs.refusal.Number.{answer_number};
ghost use Rattle.plane.specs.points.Flat.{pour};
ghost use Rattle.plane.specs.boxes.Box.{corners_of};
ghost use Rattle.plane.specs.points.Plane.{at, near_of};
ghost use Rattle.plane.specs.lines.Line.{line_of};
ghost use Rattle.plane.specs.rays.Ray.{ray_of};
ghost use Rattle.plane_calls.specs.Plane.{bit, Dist2, Circumcenter, Centroid, Edges, Centered, Corners, Inside, ExclusivelyInside, WhichEdge, Meets};
ghost use Rattle.plane_calls.specs.Blank.{no_edges, no_center, nowhere, IsMet};

use base::numbers::EMPTY;
use base::refusal::Refusal;
use plane::given::{Given, tried};
use plane::lines::Crossing;
use plane::points::{Point, site_ok};

// An answer as a number: 1 or 0.
pub fn yes(b: bool) -> u32
    ensures { result ≡ bit b }
{
    u32::from(b)
}

// The number of an answer: 0 where nothing is refused.
pub fn number<T: Copy>(answer: Result<T, Refusal>) -> u32
    ensures { result ≡ answer_number answer }
{
    match answer {
        Ok(_) => 0,
        Err(r) => r.into(),
    }
}

// Whether a and b are within the tolerance of each other, by the computed difference: 1 or 0.
pub fn abs_diff_eq(a: f64, b: f64) -> u32
    ensures { result ≡ bit (near_of a b) }
{
    yes(plane::points::abs_diff_eq(a, b))
}

// The squared distance.
pub fn dist2(a: Point, b: Point) -> Result<f64, Refusal>
    ensures { Dist2 a b (answer_number result) (result_unwrap_or result zero) }
{
    if !(site_ok(a) & site_ok(b)) {
        return Err(Refusal::Coordinate);
    }
    Ok(plane::points::dist2(a, b))
}

// The circumcenter; after 6, 11.
pub fn circumcenter(a: Point, b: Point, c: Point) -> Result<Point, Refusal>
    ensures { let p = result_unwrap_or result (at zero zero) in Circumcenter a b c (answer_number result) p.x p.y }
{
    plane::centers::circumcenter(a, b, c)
}

// The centroid of 1 to 65,536 points; 1, then 6.
pub fn centroid(points: &[f64]) -> Result<Point, Refusal>
    ensures { let p = result_unwrap_or result (at zero zero) in Centroid points.now (answer_number result) p.x p.y }
{
    plane::centers::centroid(points)
}

#[derive(Clone, Copy)]
pub struct BoxEdges {
    pub left: f64,
    pub top: f64,
    pub right: f64,
    pub bottom: f64,
    pub across: f64,
    pub down: f64,
}

pub const NO_EDGES: BoxEdges = BoxEdges {
    left: 0.0,
    top: 0.0,
    right: 0.0,
    bottom: 0.0,
    across: 0.0,
    down: 0.0,
};

// The box's edges, and its width and height recomputed from them.
pub fn box_edges(given: Given) -> Result<BoxEdges, Refusal>
    ensures { let e = result_unwrap_or result no_edges in Edges given (answer_number result) e.left e.top e.right e.bottom e.across e.down }
{
    if !given.sound {
        return Err(Refusal::Box);
    }
    let b = given.bounds;
    Ok(BoxEdges {
        left: b.left,
        top: b.top,
        right: b.right,
        bottom: b.bottom,
        across: plane::boxes::width(b),
        down: plane::boxes::height(b),
    })
}

#[derive(Clone, Copy)]
pub struct BoxCenter {
    pub x: f64,
    pub y: f64,
    pub across: f64,
    pub down: f64,
}

pub const NO_CENTER: BoxCenter = BoxCenter {
    x: 0.0,
    y: 0.0,
    across: 0.0,
    down: 0.0,
};

// The box's center, and its width and height recomputed from its edges.
pub fn box_center(given: Given) -> Result<BoxCenter, Refusal>
    ensures { let m = result_unwrap_or result no_center in Centered given (answer_number result) m.x m.y m.across m.down }
{
    if !given.sound {
        return Err(Refusal::Box);
    }
    let b = given.bounds;
    Ok(BoxCenter {
        x: b.center.x,
        y: b.center.y,
        across: plane::boxes::width(b),
        down: plane::boxes::height(b),
    })
}

// Writes the corners over the beginning.
fn put_corners(b: plane::boxes::BoundingBox, out: &mut [f64])
    requires { 8 ≤ length out.old }
    ensures { out.new ≡ pour (corners_of b) out.old }
{
    out[0] = b.left;
    out[1] = b.top;
    out[2] = b.left;
    out[3] = b.bottom;
    out[4] = b.right;
    out[5] = b.bottom;
    out[6] = b.right;
    out[7] = b.top;
}

// The corners, top left, bottom left, bottom right, top right, x and y each, into a slice of 8 or more, whose rest is cleared; 2, then 3.
pub fn corners(given: Given, out: &mut [f64]) -> Result<(), Refusal>
    ensures { Corners given out.old (answer_number result) out.new }
{
    if out.len() < 8 {
        return Err(Refusal::Room);
    }
    if !given.sound {
        return Err(Refusal::Box);
    }
    put_corners(given.bounds, out);
    cell_memory::layout::fill_from(out, 8, 0.0);
    Ok(())
}

// Whether p is inside the box or on its edges.
pub fn is_inside(given: Given, p: Point) -> Result<bool, Refusal>
    ensures { Inside given p (answer_number result) (bit (result_unwrap_or result false)) }
{
    tried(given, site_ok(p))?;
    Ok(plane::sides::is_inside(given.bounds, p))
}

// The same, and within tolerance of no side's line.
pub fn is_exclusively_inside(given: Given, p: Point) -> Result<bool, Refusal>
    ensures { ExclusivelyInside given p (answer_number result) (bit (result_unwrap_or result false)) }
{
    tried(given, site_ok(p))?;
    Ok(plane::sides::is_exclusively_inside(given.bounds, p))
}

// The side that p is on: top 0, bottom 2, right 3, left 1, the first within tolerance; EMPTY for none.
pub fn which_edge(given: Given, p: Point) -> Result<u32, Refusal>
    ensures { WhichEdge given p (answer_number result) (result_unwrap_or result numbers.EMPTY) }
{
    tried(given, site_ok(p))?;
    let side = plane::sides::which_edge(given.bounds, p);
    if side == plane::sides::NO_SIDE {
        return Ok(EMPTY);
    }
    Ok(side)
}

// What meets the box: how many points, 0 to 2, and their coordinates, 0 where there is none.
#[derive(Clone, Copy)]
pub struct Met {
    pub count: u32,
    pub x: f64,
    pub y: f64,
    pub u: f64,
    pub v: f64,
}

pub const NOWHERE: Met = Met {
    count: 0,
    x: 0.0,
    y: 0.0,
    u: 0.0,
    v: 0.0,
};

impl From<Crossing> for Met {
    ghost from_gives = { λ c m. IsMet c m };

    fn from(c: Crossing) -> Met {
        match c {
            Crossing::None => NOWHERE,
            Crossing::One(x, y) => Met {
                count: 1,
                x,
                y,
                u: 0.0,
                v: 0.0,
            },
            Crossing::Two(x, y, u, v) => Met {
                count: 2,
                x,
                y,
                u,
                v,
            },
        }
    }
}

// Where the line through two points meets the box.
pub fn intersect_line(given: Given, p: Point, q: Point) -> Result<Met, Refusal>
    ensures { let m = result_unwrap_or result nowhere in Meets line_of given p q (answer_number result) m.count m.x m.y m.u m.v }
{
    Ok(plane::rays::meet_line(given, p, q)?.into())
}

// The same of the ray from p in the direction d, in the ray's order.
pub fn project_ray(given: Given, p: Point, d: Point) -> Result<Met, Refusal>
    ensures { let m = result_unwrap_or result nowhere in Meets ray_of given p d (answer_number result) m.count m.x m.y m.u m.v }
{
    Ok(plane::rays::meet_ray(given, p, d)?.into())
}
