// The plane part of utils.rs, but for circumcenters and centroids (crate::centers): points, the tolerance test, the squared distance, and rule 6.
ghost use Rattle.std.specs.Prelude.{◌≡◌, ◌+◌, ◌*◌, ◌/◌, ◌<◌, length};
ghost use Rattle.base.specs.common.Decide.{First};
ghost use Rattle.plane.specs.points.Plane.{near_of, dist2_of};
ghost use Rattle.plane.specs.points.Flat.{point_at};
ghost use Rattle.plane.specs.points.Rules.{ok_coord, ok_site};
ghost use Rattle.plane.specs.points.Sites.{KeptAt};

use crate::choose;

#[derive(Clone, Copy)]
pub struct Point {
    pub x: f64,
    pub y: f64,
}

// The point at place i.
pub fn point_at(points: &[f64], i: usize) -> Point
    requires { 2 * i + 1 < length points.now }
    ensures { result ≡ point_at points.now i }
{
    Point {
        x: points[2 * i],
        y: points[2 * i + 1],
    }
}

pub fn abs_diff_eq(a: f64, b: f64) -> bool
    ensures { result ≡ near_of a b }
{
    choose(a > b, a - b, b - a) <= base::numbers::TOLERANCE
}

pub fn dist2(a: Point, b: Point) -> f64
    ensures { result ≡ dist2_of a b }
{
    let x = a.x - b.x;
    let y = a.y - b.y;
    (x * x) + (y * y)
}

pub fn coordinate_ok(x: f64) -> bool
    ensures { result ≡ ok_coord x }
{
    root::magnitude(x) <= base::numbers::LARGE
}

pub fn site_ok(p: Point) -> bool
    ensures { result ≡ ok_site p }
{
    coordinate_ok(p.x) & coordinate_ok(p.y)
}

// Rule 6 over a list of sites: the lowest one that breaks it, or their number.
pub fn first_bad_site(sites: &[f64]) -> usize
    ensures { First (KeptAt sites.now) (length sites.now / 2) result }
{
    let count = sites.len() / 2;
    for i in 0..count {
        if !site_ok(point_at(sites, i)) {
            return i;
        }
    }
    count
}
