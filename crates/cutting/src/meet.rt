// Where an edge of a ring crosses a side of the box. A bisector's crossing is computed from its two sites, the lower number first; the ends of the edge only bound it.
ghost use Rattle.std.specs.Prelude.{◌≡◌, not, get_or};
ghost use Rattle.std.specs.Float.{nan};
ghost use Rattle.plane.specs.points.Flat.{point_at};
ghost use Rattle.cutting.specs.meet.Crossing.{along_of, across_of, reach_by, reach_of, clamp_of, bounded_of, middle_of, slant_of, bisector_at, flat_of, cross_from, cross_by, crossed_at};
ghost use Rattle.cutting.specs.meet.Crossing.{between_down, passes_down, up_at, line_meet, crossings_of};
ghost use Rattle.cutting.specs.corner.Corner.{meet_of};

use crate::corner::{
    Carrier, Corner, SideName, coordinate, line_end, near, on_side, upper_end, within,
};
use base::numbers::wide;
use plane::boxes::BoundingBox;
use plane::points::Point;

// The coordinate along a side, and across it.
fn along(s: SideName, p: Point) -> f64
    ensures { result ≡ along_of s p }
{
    match s {
        SideName::Left | SideName::Right => p.y,
        SideName::Top | SideName::Bottom => p.x,
    }
}

fn across(s: SideName, p: Point) -> f64
    ensures { result ≡ across_of s p }
{
    along(s, Point { x: p.y, y: p.x })
}

// How far a corner reaches along a side.
fn reach_by(far: bool, d: f64, x: f64) -> f64
    ensures { result ≡ reach_by far d x }
{
    if far {
        if 0.0 < d {
            f64::from_bits(root::INFINITY)
        } else if d < 0.0 {
            -f64::from_bits(root::INFINITY)
        } else {
            x
        }
    } else {
        x
    }
}

fn reach(s: SideName, p: Corner) -> f64
    ensures { result ≡ reach_of s p }
{
    reach_by(p.far, along(s, p.toward), along(s, p.place))
}

fn clamp(lo: f64, hi: f64, t: f64) -> f64
    ensures { result ≡ clamp_of lo hi t }
{
    if lo <= t {
        if hi < t { hi } else { t }
    } else {
        lo
    }
}

fn bounded(a: f64, z: f64, t: f64) -> f64
    ensures { result ≡ bounded_of a z t }
{
    if a < z {
        clamp(a, z, t)
    } else {
        clamp(z, a, t)
    }
}

fn middle(a: f64, z: f64) -> f64
    ensures { result ≡ middle_of a z }
{
    a + (z - a) / 2.0
}

// Where a bisector meets the line at c, of sites at u and v across that line, a and z along it.
fn slant(c: f64, u: f64, v: f64, a: f64, z: f64) -> f64
    ensures { result ≡ slant_of c u v a z }
{
    middle(a, z) - (c - middle(u, v)) * ((v - u) / (z - a))
}

fn bisector_at(c: f64, s: SideName, lower: Point, upper: Point, flat: f64) -> f64
    ensures { result ≡ bisector_at c s lower upper flat }
{
    let a = along(s, lower);
    let z = along(s, upper);
    if z - a == 0.0 {
        flat
    } else {
        slant(c, across(s, lower), across(s, upper), a, z)
    }
}

fn flat_of(s: SideName, p: Corner, q: Corner) -> f64
    ensures { result ≡ flat_of s p q }
{
    if p.far {
        along(s, q.place)
    } else {
        along(s, p.place)
    }
}

// From p within a side to q past it.
fn cross_from(b: BoundingBox, s: SideName, lower: Point, upper: Point, p: Corner, q: Corner) -> f64
    ensures { result ≡ cross_from b s lower upper p q }
{
    bounded(
        reach(s, p),
        reach(s, q),
        bisector_at(coordinate(b, s), s, lower, upper, flat_of(s, p, q)),
    )
}

fn cross_by(b: BoundingBox, s: SideName, lower: Point, upper: Point, p: Corner, q: Corner) -> f64
    ensures { result ≡ cross_by b s lower upper p q }
{
    let here = within(b, s, p);
    let there = within(b, s, q);
    if here {
        if there {
            0.0
        } else {
            cross_from(b, s, lower, upper, p, q)
        }
    } else if there {
        cross_from(b, s, lower, upper, q, p)
    } else {
        0.0
    }
}

// The number at place k of a list, and a NaN past its end.
fn number_at(list: &[f64], k: usize) -> f64
    ensures { result ≡ get_or list.now k nan }
{
    if k < list.len() {
        return list[k];
    }
    0.0 / 0.0
}

pub fn site_at(sites: &[f64], i: u32) -> Point
    ensures { result ≡ point_at sites.now i }
{
    let k = wide(i);
    Point {
        x: number_at(sites, 2 * k),
        y: number_at(sites, 2 * k + 1),
    }
}

// How far along a side the bisector of sites i and j crosses it, between p and q.
pub fn cross(
    b: BoundingBox,
    sites: &[f64],
    s: SideName,
    i: u32,
    j: u32,
    p: Corner,
    q: Corner,
) -> f64
    ensures { result ≡ crossed_at b sites.now s i j p q }
{
    cross_by(b, s, site_at(sites, i), site_at(sites, j), p, q)
}

// Whether the line at infinity, from direction d to direction e, passes the lower end of an upright line.
fn between_down(d: Point, e: Point) -> bool
    ensures { result ≡ between_down d e }
{
    let a = d.y;
    let z = e.y;
    let u = d.x;
    let v = e.x;
    if (0.0 <= a) & (0.0 <= z) {
        (0.0 < a) | (0.0 < z)
    } else {
        0.0 < root::magnitude(v) * a + root::magnitude(u) * z
    }
}

fn passes_down(d: Point, e: Point) -> bool
    ensures { result ≡ passes_down d e }
{
    let a = d.y;
    let z = e.y;
    let u = d.x;
    let v = e.x;
    if u == 0.0 {
        0.0 < a
    } else if v == 0.0 {
        0.0 < z
    } else {
        between_down(d, e)
    }
}

pub fn upward(p: Corner, q: Corner) -> bool
    ensures { result ≡ not (passes_down p.toward q.toward) }
{
    !passes_down(p.toward, q.toward)
}

fn up_at(s: SideName, up: bool) -> bool
    ensures { result ≡ up_at s up }
{
    up && s == SideName::Left
}

fn line_meet(b: BoundingBox, s: SideName, up: bool) -> Corner
    ensures { result ≡ line_meet b s up }
{
    if up_at(s, up) {
        upper_end(b)
    } else {
        line_end(b, s)
    }
}

// Where the edge from p to q, which lies on k, crosses a side.
pub fn meet(b: BoundingBox, sites: &[f64], s: SideName, p: Corner, q: Corner, k: Carrier) -> Corner
    ensures { result ≡ meet_of b (crossings_of b sites.now) s p q k }
{
    match k {
        Carrier::Bisector(i, j) => near(on_side(b, s, cross(b, sites, s, i, j, p, q))),
        Carrier::Along(o) => near(on_side(b, s, coordinate(b, o))),
        Carrier::Infinity => line_meet(b, s, upward(p, q)),
    }
}
