// The hull's extensions (extend_voronoi_vertex): far beyond the box, from a circumcenter orthogonally to its hull edge; rule 12.
ghost use Rattle.std.specs.Prelude.{◌≡◌, ◌&&◌, [], ◌+◌, ◌*◌, ◌/◌, ◌%◌, ◌^◌, ◌≤◌, ◌<◌, length};
ghost use Rattle.plane.specs.points.Flat.{points};
ghost use Rattle.definition.specs.Build.{finite, extend_from};
ghost use Rattle.definition.specs.Short.{extensions};
ghost use Rattle.definition.specs.Reused.{if_old};
ghost use Rattle.cell_builder.specs.rings.Centers.{Named};
ghost use Rattle.cell_builder.specs.rings.Extensions.{ray_of, ray_over, far_along, extended_ray, edge_at, Hulled, HullReached, PointAhead, PointsFrom, ExtendsInto, ExtendedBy};

use base::numbers::wide;
use mesh::{end_site, next_place};
use plane::points::{Point, point_at};
use vertices::{add_at, vertex};

const VORONOI_INFINITY: f64 = 10000000000.0;

fn finite_point(p: Point) -> bool
    ensures { result ≡ (finite p.x && finite p.y) }
{
    p.x.is_finite() & p.y.is_finite()
}

// Where an extension begins, and its direction.
#[derive(Clone, Copy)]
pub struct Ray {
    pub start: Point,
    pub x: f64,
    pub y: f64,
}

// From c, orthogonally to the edge from a to b.
fn outward(c: Point, a: Point, b: Point) -> Ray
    ensures { result ≡ ray_of c a b }
{
    let x = a.y - b.y;
    let y = b.x - a.x;
    Ray { start: c, x, y }
}

// From the circumcenter of half-edge e, orthogonally to it.
fn ray_over(sites: &[f64], triangles: &[u32], vertices: &[f64], count: usize, e: usize) -> Ray
    requires { Named sites.now triangles.now × (length triangles.now % 3 ≡ 0) × (e < length triangles.now) × (2 * count ≤ length vertices.now) × (e / 3 < count) }
    ensures { result ≡ ray_over sites.now triangles.now (points count vertices.now) e }
{
    outward(
        vertex(vertices, count, e / 3),
        point_at(sites, wide(triangles[e])),
        point_at(sites, wide(end_site(triangles, e))),
    )
}

// Far along a ray whose direction has this length.
fn far_along(r: Ray, length: f64) -> Point
    ensures { result ≡ far_along r length }
{
    let k = 1.0 / length;
    let c = r.start;
    Point {
        x: c.x + r.x * k * VORONOI_INFINITY,
        y: c.y + r.y * k * VORONOI_INFINITY,
    }
}

// The extensions of two rays, with the roots of both lengths worked out at once.
fn extend_voronoi_vertices(r: Ray, s: Ray) -> (Point, Point)
    ensures { (result.0 ≡ extended_ray r) × (result.1 ≡ extended_ray s) }
{
    let lengths = root::roots(r.x * r.x + r.y * r.y, s.x * s.x + s.y * s.y);
    (far_along(r, lengths.0), far_along(s, lengths.1))
}

// The half-edge over which hull place i is extended: the leftmost one of the site at the next place.
fn hull_edge(hull: &[u32], table: &[u32], i: usize) -> usize
    requires { (i < length hull.now) × Hulled hull.now table.now }
    ensures { result ≡ edge_at hull.now table.now i }
{
    let b = wide(hull[next_place(hull.len(), i)]);
    wide(table[b])
}

// The ray over the edge of hull place i.
fn hull_ray(
    sites: &[f64],
    triangles: &[u32],
    hull: &[u32],
    table: &[u32],
    vertices: &[f64],
    count: usize,
    i: usize,
) -> Ray
    requires { HullReached sites.now triangles.now hull.now table.now vertices.now count × (i < length hull.now) }
    ensures { result ≡ ray_over sites.now triangles.now (points count vertices.now) (edge_at hull.now table.now i) }
{
    ray_over(sites, triangles, vertices, count, hull_edge(hull, table, i))
}

// The extension of hull place i, and that of the place after it, which is kept for it: at every second place both are worked out.
fn points_from(
    sites: &[f64],
    triangles: &[u32],
    hull: &[u32],
    table: &[u32],
    vertices: &[f64],
    count: usize,
    i: usize,
    ahead: Point,
) -> (Point, Point)
    requires hull_reached { HullReached sites.now triangles.now hull.now table.now vertices.now count × (i < length hull.now) }
    requires point_ahead { PointAhead sites.now triangles.now hull.now table.now (points count vertices.now) i ahead }
    ensures { PointsFrom sites.now triangles.now hull.now table.now (points count vertices.now) i result }
{
    if i % 2 == 1 {
        return (ahead, ahead);
    }
    let j = next_place(hull.len(), i);
    extend_voronoi_vertices(
        hull_ray(sites, triangles, hull, table, vertices, count, i),
        hull_ray(sites, triangles, hull, table, vertices, count, j),
    )
}

// Where the pass over the hull stopped, how many vertices there are then, and how many extensions took one again.
#[derive(Clone, Copy)]
pub struct Passed {
    pub place: usize,
    pub count: usize,
    pub reused: usize,
}

// One more where the point was not new.
fn count_old(n: usize, fresh: bool) -> usize
    requires { n < 2 ^ 32 }
    ensures { result ≡ n + if_old fresh 1 }
{
    n + usize::from(!fresh)
}

// Extends every hull edge. The vertices' numbers go to the index list, from `at` on, which lies before the store's part of it.
pub fn extend_hull(
    sites: &[f64],
    triangles: &[u32],
    hull: &[u32],
    table: &[u32],
    vertices: &mut [f64],
    indexes: &mut [u32],
    at: usize,
    limit: usize,
    centers: usize,
    count: usize,
) -> Passed
    requires { ExtendsInto sites.now triangles.now hull.now table.now centers count limit at vertices.old indexes.old }
    ensures { ExtendedBy (extend_from sites.now triangles.now hull.now table.now centers 0
        (length hull.now) (extensions (points count vertices.old) [] [])) (length hull.now) centers limit at
        vertices.old indexes.old result vertices.new indexes.new }
{
    let mut n = count;
    let mut old: usize = 0;
    let mut ahead = Point { x: 0.0, y: 0.0 };
    for i in 0..hull.len() {
        let (p, next) = points_from(sites, triangles, hull, table, vertices, n, i, ahead);
        if !finite_point(p) {
            return Passed {
                place: i,
                count: n,
                reused: old,
            };
        }
        let r = add_at(vertices, indexes, limit, centers, n, p.x, p.y);
        indexes[at + i] = r.at as u32;
        n = r.count;
        old = count_old(old, r.fresh);
        ahead = next;
    }
    Passed {
        place: hull.len(),
        count: n,
        reused: old,
    }
}
