// Whether a point is an admitted destination of the theorem on nearest gauges, and the lowest corner of a box that is none: both coordinates are whole numbers
// of the same unit, 1, 1/2, 1/4 .. 1/4,096, and near enough to the grid.
ghost use Rattle.std.specs.Prelude.{◌≡◌, ◌≤◌};
ghost use Rattle.nearest.specs.corners.Tried.{are_units, in_units, in_both, admitted, off_corner};

use plane::boxes::BoundingBox;
use plane::points::Point;

// Whether v units of 1 / unit, few enough, are the magnitude m.
fn are_units(m: f64, unit: u32, v: u64) -> bool
    requires { unit ≤ 4096 }
    ensures { result ≡ are_units unit v m }
{
    let room = 67108864 - 8192 * unit;
    if room as u64 <= v {
        return false;
    }
    v as f64 / unit as f64 == m
}

// Whether x is a whole number of units of 1 / unit, few enough: the number is sought by cutting.
fn in_units(x: f64, unit: u32) -> bool
    requires { unit ≤ 4096 }
    ensures { result ≡ in_units unit x }
{
    let m = root::magnitude(x);
    let y = m * unit as f64;
    if !(-1.0 < y) {
        return false;
    }
    if !(y < 18446744073709551616.0) {
        return false;
    }
    are_units(m, unit, std::num::truncating_f64_to_u64(y))
}

fn in_both(p: Point, unit: u32) -> bool
    requires { unit ≤ 4096 }
    ensures { result ≡ in_both unit p }
{
    in_units(p.x, unit) & in_units(p.y, unit)
}

pub fn admitted(p: Point) -> bool
    ensures { result ≡ admitted p }
{
    for k in 0..13 {
        if in_both(p, 2u32.pow(k)) {
            return true;
        }
    }
    false
}

// The lowest corner that is not admitted, or 4.
pub fn off_corner(b: BoundingBox) -> u32
    ensures { result ≡ off_corner b }
{
    if !admitted(Point {
        x: b.left,
        y: b.top,
    }) {
        return 0;
    }
    if !admitted(Point {
        x: b.left,
        y: b.bottom,
    }) {
        return 1;
    }
    if !admitted(Point {
        x: b.right,
        y: b.bottom,
    }) {
        return 2;
    }
    if !admitted(Point {
        x: b.right,
        y: b.top,
    }) {
        return 3;
    }
    4
}
