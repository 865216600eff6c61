// bounding_box.rs, the ray: the order of the points in which its line crosses the box; and the public line and ray.
ghost use Rattle.std.specs.Prelude.{◌≡◌};
ghost use Rattle.plane.specs.rays.Ray.{order_pick, order_by, order_two, order_one, order_of, ray_of};
ghost use Rattle.plane.specs.rays.Rules.{line_answer, ray_answer};

use crate::boxes::BoundingBox;
use crate::choose;
use crate::given::{Given, tried};
use crate::lines::{Crossing, intersect_line, one_if};
use crate::points::{Point, site_ok};
use base::refusal::Refusal;

fn order_pick(a: bool, b: bool, near: bool, x: f64, y: f64, u: f64, v: f64) -> Crossing
    ensures { result ≡ order_pick a b near x y u v }
{
    if a {
        if b {
            if near {
                Crossing::Two(u, v, x, y)
            } else {
                Crossing::Two(x, y, u, v)
            }
        } else {
            Crossing::One(x, y)
        }
    } else if b {
        Crossing::One(u, v)
    } else {
        Crossing::None
    }
}

fn order_by(d: f64, da: f64, db: f64, x: f64, y: f64, u: f64, v: f64) -> Crossing
    ensures { result ≡ order_by d da db x y u v }
{
    let s = root::signum(d);
    order_pick(
        s == root::signum(da),
        s == root::signum(db),
        root::magnitude(da) > root::magnitude(db),
        x,
        y,
        u,
        v,
    )
}

fn order_two(p: Point, dir: Point, x: f64, y: f64, u: f64, v: f64) -> Crossing
    ensures { result ≡ order_two p dir x y u v }
{
    let along = root::magnitude(dir.x) > root::magnitude(dir.y);
    order_by(
        choose(along, dir.x, dir.y),
        choose(along, x - p.x, y - p.y),
        choose(along, u - p.x, v - p.y),
        x,
        y,
        u,
        v,
    )
}

fn order_one(dir: Point, x: f64, y: f64) -> Crossing
    ensures { result ≡ order_one dir x y }
{
    one_if(
        (root::signum(dir.x) == root::signum(x)) & (root::signum(dir.y) == root::signum(y)),
        x,
        y,
    )
}

pub fn order_points_on_ray(p: Point, dir: Point, c: Crossing) -> Crossing
    ensures { result ≡ order_of p dir c }
{
    match c {
        Crossing::None => Crossing::None,
        Crossing::One(x, y) => order_one(dir, x, y),
        Crossing::Two(x, y, u, v) => order_two(p, dir, x, y, u, v),
    }
}

pub fn project_ray(b: BoundingBox, p: Point, dir: Point) -> Crossing
    ensures { result ≡ ray_of b p dir }
{
    let q = Point {
        x: p.x + dir.x,
        y: p.y + dir.y,
    };
    order_points_on_ray(p, dir, intersect_line(b, p, q))
}

// What the line through p and q meets; refusal 3 (the box), then 6 (a coordinate).
pub fn meet_line(given: Given, p: Point, q: Point) -> Result<Crossing, Refusal>
    ensures { result ≡ line_answer given p q }
{
    tried(given, site_ok(p) & site_ok(q))?;
    Ok(intersect_line(given.bounds, p, q))
}

// The same of the ray from p in the direction dir.
pub fn meet_ray(given: Given, p: Point, dir: Point) -> Result<Crossing, Refusal>
    ensures { result ≡ ray_answer given p dir }
{
    tried(given, site_ok(p) & site_ok(dir))?;
    Ok(project_ray(given.bounds, p, dir))
}
