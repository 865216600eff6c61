// A ring that is being cut: its corners, what its edges lie on, and the four sides of a box, each with what is within it.
ghost use Rattle.std.specs.Prelude.{◌≡◌};
ghost use Rattle.cutting.specs.corner.Corner.{coordinate, on_side, past_low, past_high, within_of, near, circle_center, far_at, far_end, line_toward, line_end, upper_end};

use plane::boxes::BoundingBox;
use plane::points::Point;

// The sides in the order of the cuts.
#[derive(Clone, Copy, Debug, PartialEq, Eq)]
pub enum SideName {
    Left,
    Top,
    Right,
    Bottom,
}

// A place, the center of a triangle's circle with the triangle's number, or a corner at infinity: the direction, and a place on the line that runs there.
#[derive(Clone, Copy)]
pub struct Corner {
    pub place: Point,
    pub far: bool,
    pub toward: Point,
    pub number: u32,
}

// What an edge lies on: the bisector of two sites, the lower number first, a side, or the line at infinity.
#[derive(Clone, Copy, Debug, PartialEq, Eq)]
pub enum Carrier {
    Bisector(u32, u32),
    Along(SideName),
    Infinity,
}

pub fn coordinate(b: BoundingBox, s: SideName) -> f64
    ensures { result ≡ coordinate b s }
{
    match s {
        SideName::Left => b.left,
        SideName::Top => b.top,
        SideName::Right => b.right,
        SideName::Bottom => b.bottom,
    }
}

// The place on a side, t along it.
pub fn on_side(b: BoundingBox, s: SideName, t: f64) -> Point
    ensures { result ≡ on_side b s t }
{
    match s {
        SideName::Left => Point { x: b.left, y: t },
        SideName::Top => Point { x: t, y: b.top },
        SideName::Right => Point { x: b.right, y: t },
        SideName::Bottom => Point { x: t, y: b.bottom },
    }
}

// Within a side to the left or at the top, and to the right or at the bottom.
fn past_low(far: bool, d: f64, c: f64, x: f64) -> bool
    ensures { result ≡ past_low far d c x }
{
    if far {
        if d < 0.0 {
            false
        } else if 0.0 < d {
            true
        } else {
            c <= x
        }
    } else {
        c <= x
    }
}

fn past_high(far: bool, d: f64, c: f64, x: f64) -> bool
    ensures { result ≡ past_high far d c x }
{
    if far {
        if 0.0 < d {
            false
        } else if d < 0.0 {
            true
        } else {
            x <= c
        }
    } else {
        x <= c
    }
}

pub fn within(b: BoundingBox, s: SideName, p: Corner) -> bool
    ensures { result ≡ within_of b s p }
{
    match s {
        SideName::Left => past_low(p.far, p.toward.x, b.left, p.place.x),
        SideName::Top => past_low(p.far, p.toward.y, b.top, p.place.y),
        SideName::Right => past_high(p.far, p.toward.x, b.right, p.place.x),
        SideName::Bottom => past_high(p.far, p.toward.y, b.bottom, p.place.y),
    }
}

pub fn near(p: Point) -> Corner
    ensures { result ≡ near p }
{
    circle_center(p, base::numbers::EMPTY)
}

// The center of the circle of triangle t.
pub fn circle_center(p: Point, t: u32) -> Corner
    ensures { result ≡ circle_center p t }
{
    Corner {
        place: p,
        far: false,
        toward: Point { x: 0.0, y: 0.0 },
        number: t,
    }
}

// The end in direction d of a line through p.
pub fn far_at(p: Point, d: Point) -> Corner
    ensures { result ≡ far_at p d }
{
    Corner {
        place: p,
        far: true,
        toward: d,
        number: base::numbers::EMPTY,
    }
}

// The end of a side in direction d.
pub fn far_end(b: BoundingBox, s: SideName, d: Point) -> Corner
    ensures { result ≡ far_end b s d }
{
    far_at(on_side(b, s, 0.0), d)
}

// The direction in which the line at infinity crosses a side: the left and the right side at the lower end, the top and the bottom at the right end.
fn line_toward(s: SideName) -> Point
    ensures { result ≡ line_toward s }
{
    match s {
        SideName::Left | SideName::Right => Point { x: 0.0, y: 1.0 },
        SideName::Top | SideName::Bottom => Point { x: 1.0, y: 0.0 },
    }
}

pub fn line_end(b: BoundingBox, s: SideName) -> Corner
    ensures { result ≡ line_end b s }
{
    far_end(b, s, line_toward(s))
}

pub fn upper_end(b: BoundingBox) -> Corner
    ensures { result ≡ upper_end b }
{
    far_end(b, SideName::Left, Point { x: 0.0, y: -1.0 })
}
