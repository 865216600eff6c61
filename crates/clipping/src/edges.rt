// clip_voronoi_edge: where an edge crosses the box, and the crossings as vertices.
ghost use Rattle.std.specs.Prelude.{◌≡◌, cond, ◌+◌, ◌*◌, ◌≤◌, ◌<◌, ◌^◌, length, drop};
ghost use Rattle.base.specs.common.Decide.{Says};
ghost use Rattle.plane.specs.points.Plane.{at};
ghost use Rattle.plane.specs.points.Flat.{points};
ghost use Rattle.vertices.specs.Store.{Holds};
ghost use Rattle.definition.specs.Cell as Def;
ghost use Rattle.definition.specs.Reused as Counts;
ghost use Rattle.clipping.specs.edges.EdgeClip.{CrossingsAsked, ClipsEdge};

use definition::Reused;
use plane::boxes::BoundingBox;
use plane::lines::{Crossing, intersect_line};
use plane::points::Point;
use plane::rays::{order_points_on_ray, project_ray};
use vertices::{add_at, vertex};

// What stays while one cell is clipped: the box, the number of circumcenters, where the store's part of the index list begins, and the cell's site.
#[derive(Clone, Copy)]
pub struct Env {
    pub bounds: BoundingBox,
    pub centers: usize,
    pub limit: usize,
    pub site: u32,
}

// The vertices where an edge crosses the box, how many vertices there are then, and which of the crossings took one again.
#[derive(Clone, Copy)]
pub enum Crossed {
    Missed,
    Once(u32, usize, Reused),
    Twice(u32, u32, usize, Reused),
}

// 1 where a vertex was taken again.
fn if_old(fresh: bool) -> usize
    ensures { result ≡ Counts.if_old fresh 1 }
{
    usize::from(!fresh)
}

// The reused points of two stretches of the build together.
pub fn together(a: Reused, b: Reused) -> Reused
    requires { Counts.Addable a × Counts.Addable b }
    ensures { result ≡ Counts.together a b }
{
    Reused {
        extensions: a.extensions + b.extensions,
        firsts: a.firsts + b.firsts,
        seconds: a.seconds + b.seconds,
    }
}

// Whether the first point of an ordered crossing is (x, y).
fn first_is(c: Crossing, x: f64, y: f64) -> bool
    ensures { result ≡ Def.first_is c x y }
{
    match c {
        Crossing::None => false,
        Crossing::One(u, v) => (u == x) & (v == y),
        Crossing::Two(u, v, _, _) => (u == x) & (v == y),
    }
}

// Two crossings of the ray from p in the direction d, if the first comes before q.
fn before_end(p: Point, q: Point, d: Point, x: f64, y: f64, u: f64, v: f64) -> Crossing
    ensures { result ≡ Def.on_edge p q d (Crossing.Two x y u v) }
{
    let ordered = order_points_on_ray(p, d, Crossing::Two(q.x, q.y, x, y));
    if first_is(ordered, x, y) {
        return Crossing::Two(x, y, u, v);
    }
    Crossing::None
}

fn on_edge(p: Point, q: Point, d: Point, c: Crossing) -> Crossing
    ensures { result ≡ Def.on_edge p q d c }
{
    match c {
        Crossing::None => Crossing::None,
        Crossing::One(x, y) => Crossing::One(x, y),
        Crossing::Two(x, y, u, v) => before_end(p, q, d, x, y, u, v),
    }
}

// The line and its order on the ray are called here, not `project_ray`: the public calls share that, and it would be no part of the walk's code.
fn edge_crossing(bounds: BoundingBox, p: Point, q: Point) -> Crossing
    ensures { result ≡ Def.edge_crossing bounds p q }
{
    let d = Point {
        x: q.x - p.x,
        y: q.y - p.y,
    };
    let second = Point {
        x: p.x + d.x,
        y: p.y + d.y,
    };
    let met = intersect_line(bounds, p, second);
    let ordered = order_points_on_ray(p, d, met);
    on_edge(p, q, d, ordered)
}

fn crossing_between(vertices: &[f64], count: usize, bounds: BoundingBox, p: u32, q: u32) -> Crossing
    requires { (2 * count ≤ length vertices.now) × (p < count) × (q < count) }
    ensures { result ≡ Def.edge_crossing bounds (Def.vertex_at (points count vertices.now) p) (Def.vertex_at (points count vertices.now) q) }
{
    let from = vertex(vertices, count, p as usize);
    let to = vertex(vertices, count, q as usize);
    edge_crossing(bounds, from, to)
}

// The same by `project_ray`: with one caller `edge_crossing` is a part of the walk's code, and what asks for a crossing elsewhere has this.
// Two functions for one contract, here and below, for the time alone (docs/DECISIONS.md): a second caller of `edge_crossing` takes it out of the walk's code.
fn ray_crossing(bounds: BoundingBox, p: Point, q: Point) -> Crossing
    ensures { result ≡ Def.edge_crossing bounds p q }
{
    let d = Point {
        x: q.x - p.x,
        y: q.y - p.y,
    };
    on_edge(p, q, d, project_ray(bounds, p, d))
}

fn ray_between(vertices: &[f64], count: usize, bounds: BoundingBox, p: u32, q: u32) -> Crossing
    requires { (2 * count ≤ length vertices.now) × (p < count) × (q < count) }
    ensures { result ≡ Def.edge_crossing bounds (Def.vertex_at (points count vertices.now) p) (Def.vertex_at (points count vertices.now) q) }
{
    let start = vertex(vertices, count, p as usize);
    let end = vertex(vertices, count, q as usize);
    ray_crossing(bounds, start, end)
}

// Whether the edge from vertex p to vertex q does not cross the box.
pub fn misses(vertices: &[f64], count: usize, bounds: BoundingBox, p: u32, q: u32) -> bool
    requires { (2 * count ≤ length vertices.now) × (p < count) × (q < count) }
    ensures { Says result (Def.edge_crossing bounds (Def.vertex_at (points count vertices.now) p) (Def.vertex_at (points count vertices.now) q) ≡ Crossing.None) }
{
    let c = ray_between(vertices, count, bounds, p, q);
    match c {
        Crossing::None => true,
        Crossing::One(_, _) => false,
        Crossing::Two(_, _, _, _) => false,
    }
}

fn either(c: bool, x: u32, y: u32) -> u32
    ensures { result ≡ cond c x y }
{
    if c { x } else { y }
}

// The crossings of the edge from vertex p to vertex q, found from its end inside where one is; of an edge with both ends inside none is asked for.
// All cases find them here: the crossings are most of an edge's work, and stand once in the code.
pub fn crossing_of(
    vertices: &[f64],
    count: usize,
    bounds: BoundingBox,
    p: u32,
    p_in: bool,
    q: u32,
    q_in: bool,
) -> Crossing
    requires { (2 * count ≤ length vertices.now) × (p < count) × (q < count) }
    ensures { CrossingsAsked bounds (points count vertices.now) p p_in q q_in result }
{
    if q_in & p_in {
        return Crossing::None;
    }
    let from = either(q_in, q, p);
    let to = either(q_in, p, q);
    crossing_between(vertices, count, bounds, from, to)
}

fn clip_once(
    vertices: &mut [f64],
    indexes: &mut [u32],
    env: Env,
    count: usize,
    x: f64,
    y: f64,
) -> Crossed
    requires holds { Holds env.centers count vertices.old (drop env.limit indexes.old) }
    requires count_in_bounds { (2 * (count + 2) ≤ length vertices.old) × (count + 2 ≤ 2 ^ 32) }
    ensures { ClipsEdge env.centers env.limit count (Def.clip_with env.centers (points count vertices.old) (Crossing.One x y))
        vertices.old indexes.old result vertices.new indexes.new }
{
    let a = add_at(vertices, indexes, env.limit, env.centers, count, x, y);
    let at = a.at as u32;
    let reused = Reused {
        extensions: 0,
        firsts: if_old(a.fresh),
        seconds: 0,
    };
    Crossed::Once(at, a.count, reused)
}

fn clip_twice(
    vertices: &mut [f64],
    indexes: &mut [u32],
    env: Env,
    count: usize,
    x: f64,
    y: f64,
    z: f64,
    w: f64,
) -> Crossed
    requires holds { Holds env.centers count vertices.old (drop env.limit indexes.old) }
    requires count_in_bounds { (2 * (count + 2) ≤ length vertices.old) × (count + 2 ≤ 2 ^ 32) }
    ensures { ClipsEdge env.centers env.limit count (Def.clip_with env.centers (points count vertices.old) (Crossing.Two x y z w))
        vertices.old indexes.old result vertices.new indexes.new }
{
    let a = add_at(vertices, indexes, env.limit, env.centers, count, x, y);
    let b = add_at(vertices, indexes, env.limit, env.centers, a.count, z, w);
    let reused = Reused {
        extensions: 0,
        firsts: if_old(a.fresh),
        seconds: if_old(b.fresh),
    };
    Crossed::Twice(a.at as u32, b.at as u32, b.count, reused)
}

// The crossings as vertices, at most two.
pub fn add_crossings(
    vertices: &mut [f64],
    indexes: &mut [u32],
    env: Env,
    count: usize,
    c: Crossing,
) -> Crossed
    requires holds { Holds env.centers count vertices.old (drop env.limit indexes.old) }
    requires count_in_bounds { (2 * (count + 2) ≤ length vertices.old) × (count + 2 ≤ 2 ^ 32) }
    ensures { ClipsEdge env.centers env.limit count (Def.clip_with env.centers (points count vertices.old) c)
        vertices.old indexes.old result vertices.new indexes.new }
{
    match c {
        Crossing::None => Crossed::Missed,
        Crossing::One(x, y) => clip_once(vertices, indexes, env, count, x, y),
        Crossing::Two(x, y, z, w) => clip_twice(vertices, indexes, env, count, x, y, z, w),
    }
}
