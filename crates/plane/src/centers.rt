// Circumcenters with rule 11, and the centroid: the rest of the plane part of utils.rs.
ghost use Rattle.std.specs.Prelude.{◌≡◌, ◌*◌, ◌≤◌, length};
ghost use Rattle.plane.specs.centers.Circumcenter.{center_of, ok_center, center_answer};
ghost use Rattle.plane.specs.centers.Centroid.{point_sum, mean_of, centroid_answer};

use crate::points::{Point, first_bad_site, site_ok};
use base::refusal::Refusal;

pub fn circumcenter_of(a: Point, b: Point, c: Point) -> Point
    ensures { result ≡ center_of a b c }
{
    let b_x = b.x - a.x;
    let b_y = b.y - a.y;
    let c_x = c.x - a.x;
    let c_y = c.y - a.y;
    let bb = b_x * b_x + b_y * b_y;
    let cc = c_x * c_x + c_y * c_y;
    let d = 1.0 / (2.0 * (b_x * c_y - b_y * c_x));
    Point {
        x: a.x + d * (c_y * bb - b_y * cc),
        y: a.y + d * (b_x * cc - c_x * bb),
    }
}

pub fn center_ok(p: Point) -> bool
    ensures { result ≡ ok_center p }
{
    (root::magnitude(p.x) <= base::numbers::HUGE) & (root::magnitude(p.y) <= base::numbers::HUGE)
}

// The circumcenter, or refusal 6 (a coordinate) or 11 (the circumcenter).
pub fn circumcenter(a: Point, b: Point, c: Point) -> Result<Point, Refusal>
    ensures { result ≡ center_answer a b c }
{
    if !(site_ok(a) & site_ok(b) & site_ok(c)) {
        return Err(Refusal::Coordinate);
    }
    let p = circumcenter_of(a, b, c);
    if !center_ok(p) {
        return Err(Refusal::Circumcenter);
    }
    Ok(p)
}

fn sum_of(points: &[f64], count: usize) -> Point
    requires { 2 * count ≤ length points.now }
    ensures { result ≡ point_sum points.now count }
{
    let mut x = 0.0;
    let mut y = 0.0;
    for i in 0..count {
        x += points[2 * i];
        y += points[2 * i + 1];
    }
    Point { x, y }
}

fn centroid_of(points: &[f64], count: usize) -> Point
    requires { (2 * count ≤ length points.now) × (count ≤ 65536) }
    ensures { result ≡ mean_of points.now count }
{
    let r = sum_of(points, count);
    let n = count as f64;
    Point {
        x: r.x / n,
        y: r.y / n,
    }
}

// The centroid of 1 to 65,536 points, or refusal 1 (their count) or 6 (a coordinate).
pub fn centroid(points: &[f64]) -> Result<Point, Refusal>
    ensures { result ≡ centroid_answer points.now }
{
    let count = points.len() / 2;
    if points.len() != 2 * count {
        return Err(Refusal::Count);
    }
    if count == 0 {
        return Err(Refusal::Count);
    }
    if 65536 < count {
        return Err(Refusal::Count);
    }
    if first_bad_site(points) < count {
        return Err(Refusal::Coordinate);
    }
    Ok(centroid_of(points, count))
}
