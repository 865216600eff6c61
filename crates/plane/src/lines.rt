// bounding_box.rs, the line: where it meets each side of the box, and what is answered of the four.
ghost use Rattle.std.specs.Prelude.{◌≡◌};
ghost use Rattle.plane.specs.lines.Line.{one_if, two_if, upright_hit, line_of};
ghost use Rattle.plane.specs.lines.Met.{side_met, level_met, upright_by, each_of, levels_of};

use crate::boxes::BoundingBox;
use crate::choose;
use crate::points::Point;

#[derive(Clone, Copy, Debug, PartialEq)]
pub enum Crossing {
    None,
    One(f64, f64),
    Two(f64, f64, f64, f64),
}

pub fn one_if(t: bool, x: f64, y: f64) -> Crossing
    ensures { result ≡ one_if t x y }
{
    if t {
        Crossing::One(x, y)
    } else {
        Crossing::None
    }
}

// Whether a line meets the right or the left side at height y, and whether it meets the top or the bottom at x.
fn on_side(b: BoundingBox, cx: f64, y: f64) -> bool
    ensures { result ≡ side_met b cx y }
{
    (root::magnitude(cx) > base::numbers::TOLERANCE) & ((y >= b.top) & (y <= b.bottom))
}

fn on_level(b: BoundingBox, cy: f64, x: f64) -> bool
    ensures { result ≡ level_met b cy x }
{
    (root::magnitude(cy) > base::numbers::TOLERANCE) & ((x <= b.right) & (x >= b.left))
}

fn two_if(t: bool, x: f64, y: f64, u: f64, v: f64) -> Crossing
    ensures { result ≡ two_if t x y u v }
{
    if t {
        Crossing::Two(x, y, u, v)
    } else {
        Crossing::None
    }
}

fn upright_hit(b: BoundingBox, x: f64) -> Crossing
    ensures { result ≡ upright_hit b x }
{
    two_if((x <= b.right) & (x >= b.left), x, b.top, x, b.bottom)
}

fn upright(cx: f64, cy: f64) -> bool
    ensures { result ≡ upright_by cx cy }
{
    (root::magnitude(cy) > base::numbers::TOLERANCE)
        & (root::magnitude(cx) < base::numbers::TOLERANCE)
}

// A point of a side if s holds, then one of the top or the bottom if l does.
fn one_each(s: bool, x: f64, y: f64, l: bool, u: f64, v: f64) -> Crossing
    ensures { result ≡ each_of s x y l u v }
{
    if s {
        if l {
            return Crossing::Two(x, y, u, v);
        }
        return Crossing::One(x, y);
    }
    one_if(l, u, v)
}

// A line that is not upright and meets the right side at y if f holds, the left at z if g does, and not both; it meets the top's line at t and the bottom's at m.
fn levels(b: BoundingBox, f: bool, g: bool, y: f64, z: f64, cy: f64, t: f64, m: f64) -> Crossing
    ensures { result ≡ levels_of b f g y z cy t m }
{
    let h = on_level(b, cy, t);
    let i = on_level(b, cy, m);
    if h & i {
        return Crossing::Two(t, b.top, m, b.bottom);
    }
    one_each(
        f | g,
        choose(f, b.right, b.left),
        choose(f, y, z),
        h | i,
        choose(h, t, m),
        choose(h, b.top, b.bottom),
    )
}

// The top and the bottom are divided for only where the sides do not settle it.
pub fn intersect_line(b: BoundingBox, p: Point, q: Point) -> Crossing
    ensures { result ≡ line_of b p q }
{
    let cx = q.x - p.x;
    let cy = q.y - p.y;
    let c = cy / cx;
    let d = p.y - p.x * c;
    let y = b.right * c + d;
    let z = b.left * c + d;
    let f = on_side(b, cx, y);
    let g = on_side(b, cx, z);
    if f & g {
        return Crossing::Two(b.right, y, b.left, z);
    }
    if upright(cx, cy) {
        return upright_hit(b, p.x);
    }
    levels(b, f, g, y, z, cy, (b.top - d) / c, (b.bottom - d) / c)
}
