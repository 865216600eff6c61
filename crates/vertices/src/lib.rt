// The vertex store of cell_builder.rs over lent slices: circumcenters, then the box's corners, then added points, x and y in turn.

#![tactic(auto)]

pub mod buckets;

ghost use Rattle.std.specs.Prelude.{◌≡◌, [], ◌∷◌, ◌++◌, ◌+◌, ◌-◌, ◌*◌, ◌≤◌, ◌<◌, length, get_or, set, drop};
ghost use Rattle.std.specs.Float.{nan};
ghost use Rattle.plane.specs.points.Plane.{at};
ghost use Rattle.plane.specs.points.Flat.{points};
ghost use Rattle.vertices.specs.Add.{add_vertex};
ghost use Rattle.vertices.specs.Store.{Holds, Leaves, PlacedAs};
ghost use Rattle.vertices.specs.buckets.Buckets.{heads_of};
ghost use Rattle.vertices.specs.buckets.Steps.{HomeOf};

use crate::buckets::{Home, empty, find, heads_in, home_of, insert};
use plane::points::{Point, point_at};

// Where a point stands among the vertices, whether it was added there, and how many vertices there are now.
#[derive(Clone, Copy)]
pub struct Placed {
    pub at: usize,
    pub fresh: bool,
    pub count: usize,
}

// Vertex i.
pub fn vertex(vertices: &[f64], count: usize, i: usize) -> Point
    requires { (2 * count ≤ length vertices.now) × (i < count) }
    ensures { result ≡ get_or (points count vertices.now) i (at nan nan) }
{
    point_at(vertices, i)
}

// Writes p as vertex i.
pub fn put(vertices: &mut [f64], i: usize, p: Point)
    requires { 2 * i + 1 < length vertices.old }
    ensures { vertices.new ≡ set (set vertices.old (2 * i) p.x) (2 * i + 1) p.y }
{
    vertices[2 * i] = p.x;
    vertices[2 * i + 1] = p.y;
}

// Puts p, which belongs there, after the vertices, and inserts it.
fn append(
    vertices: &mut [f64],
    indexes: &mut [u32],
    limit: usize,
    centers: usize,
    count: usize,
    there: Home,
    p: Point,
)
    requires holds { Holds centers count vertices.old (drop limit indexes.old) }
    requires home_of { HomeOf (heads_of (length indexes.old - limit)) p there }
    requires count_in_bounds { 2 * count + 2 ≤ length vertices.old }
    ensures { Leaves centers limit (points count vertices.old ++ p ∷ []) vertices.old indexes.old (count + 1)
        vertices.new indexes.new }
{
    put(vertices, count, p);
    insert(indexes, limit, count - centers, there.bucket, there.mark);
}

// p's place among the vertices: the first near one after the circumcenters, else a new one.
// The index list from `limit` on belongs to the store.
fn add_new_vertex(
    vertices: &mut [f64],
    indexes: &mut [u32],
    limit: usize,
    centers: usize,
    count: usize,
    p: Point,
) -> Placed
    requires holds { Holds centers count vertices.old (drop limit indexes.old) }
    requires count_in_bounds { 2 * count + 2 ≤ length vertices.old }
    ensures placed { PlacedAs count (add_vertex centers (points count vertices.old) p) result }
    ensures slices { Leaves centers limit (add_vertex centers (points count vertices.old) p).verts
        vertices.old indexes.old result.count vertices.new indexes.new }
{
    let there = home_of(heads_in(indexes.len(), limit), p);
    let i = find(vertices, indexes, limit, centers, count, there, p);
    if i < count {
        return Placed {
            at: i,
            fresh: false,
            count: count,
        };
    }
    append(vertices, indexes, limit, centers, count, there, p);
    Placed {
        at: count,
        fresh: true,
        count: count + 1,
    }
}

// The same of the point (x, y). Callers hand its coordinates on as numbers: a record is written one coordinate at a time and read whole, and that read waits.
pub fn add_at(
    vertices: &mut [f64],
    indexes: &mut [u32],
    limit: usize,
    centers: usize,
    count: usize,
    x: f64,
    y: f64,
) -> Placed
    requires holds { Holds centers count vertices.old (drop limit indexes.old) }
    requires count_in_bounds { 2 * count + 2 ≤ length vertices.old }
    ensures placed { PlacedAs count (add_vertex centers (points count vertices.old) (at x y)) result }
    ensures slices { Leaves centers limit (add_vertex centers (points count vertices.old) (at x y)).verts
        vertices.old indexes.old result.count vertices.new indexes.new }
{
    add_new_vertex(
        vertices,
        indexes,
        limit,
        centers,
        count,
        Point { x: x, y: y },
    )
}

// The box's corners after the circumcenters: with them the store begins.
pub fn calculate_corners(
    vertices: &mut [f64],
    indexes: &mut [u32],
    limit: usize,
    centers: usize,
    corners: [Point; 4],
) -> usize
    requires { 2 * centers + 8 ≤ length vertices.old }
    ensures count { result ≡ centers + 4 }
    ensures slices { Leaves centers limit (points centers vertices.old ++ corners) vertices.old
        indexes.old result vertices.new indexes.new }
{
    empty(indexes, limit);
    for (k, corner) in corners.iter().enumerate() {
        let there = home_of(heads_in(indexes.len(), limit), *corner);
        append(
            vertices,
            indexes,
            limit,
            centers,
            centers + k,
            there,
            *corner,
        );
    }
    centers + corners.len()
}
