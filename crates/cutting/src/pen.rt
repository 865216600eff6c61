// A piece's corners as they come, written into the lent slices: a place that comes twice in a row once, with its vertex number.
ghost use Rattle.std.specs.Prelude.{◌≡◌, ◌+◌, ◌*◌, ◌≤◌, ◌<◌, length};
ghost use Rattle.base.specs.numbers.Numbers.{EMPTY};
ghost use Rattle.cutting.specs.pen.Pen.{same_place, column_number, corner_number, number_for, count_with, added_vertex, repeats, ends_with, page, written_as, inked, pen_on, entries_on};
ghost use Rattle.cutting.specs.pen.Room.{Writable, Ready};

use base::numbers::{EMPTY, wide};
use plane::boxes::BoundingBox;
use plane::points::Point;

// The first place of a ring that is being written, and the last so far.
#[derive(Clone, Copy)]
pub struct RingEnds {
    pub first: Point,
    pub last: Point,
}

// Where the next entry goes, how many vertices there are, and the ends of the ring that is being written, where it has any place yet.
#[derive(Clone, Copy)]
pub struct Pen {
    pub at: usize,
    pub count: usize,
    pub ends: Option<RingEnds>,
}

pub fn same_place(p: Point, q: Point) -> bool
    ensures { result ≡ same_place p q }
{
    (p.x == q.x) & (p.y == q.y)
}

// `upper` where y is the top, `lower` where it is the bottom, else `none`.
fn column_number(y: f64, top: f64, bottom: f64, upper: usize, lower: usize, none: usize) -> usize
    ensures { result ≡ column_number y top bottom upper lower none }
{
    if y == top {
        return upper;
    }
    if y == bottom {
        return lower;
    }
    none
}

// The vertex number of the box's corner at p, else `none`.
fn corner_number(b: BoundingBox, centers: usize, p: Point, none: usize) -> usize
    requires { centers < EMPTY }
    ensures { result ≡ corner_number b centers p none }
{
    if p.x == b.left {
        return column_number(p.y, b.top, b.bottom, centers, centers + 1, none);
    }
    if p.x == b.right {
        return column_number(p.y, b.top, b.bottom, centers + 3, centers + 2, none);
    }
    none
}

// A circumcenter keeps its number, a place at a corner of the box takes the corner's, any other the next.
fn number_for(b: BoundingBox, centers: usize, count: usize, p: Point, number: u32) -> usize
    requires { centers < EMPTY }
    ensures { result ≡ number_for b centers count p number }
{
    if number == EMPTY {
        return corner_number(b, centers, p, count);
    }
    wide(number)
}

fn count_with(n: usize, count: usize) -> usize
    requires { n ≡ count → count < EMPTY }
    ensures { result ≡ count_with n count }
{
    if n == count {
        return count + 1;
    }
    count
}

// p becomes vertex n where that is the next.
fn add_vertex(vertices: &mut [f64], n: usize, count: usize, p: Point)
    requires { n ≡ count → 2 * count + 1 < length vertices.old }
    ensures { vertices.new ≡ added_vertex n count p vertices.old }
{
    if n != count {
        return;
    }
    vertices[2 * n] = p.x;
    vertices[2 * n + 1] = p.y;
}

fn repeats_last(pen: Pen, p: Point) -> bool
    ensures { result ≡ repeats pen p }
{
    match pen.ends {
        Some(ends) => same_place(ends.last, p),
        None => false,
    }
}

// The ends with p for the last place.
fn ends_with(ends: Option<RingEnds>, p: Point) -> RingEnds
    ensures { result ≡ ends_with ends p }
{
    match ends {
        Some(e) => RingEnds {
            first: e.first,
            last: p,
        },
        None => RingEnds { first: p, last: p },
    }
}

// p is written with number n.
fn write(pen: Pen, n: usize, p: Point, vertices: &mut [f64], indexes: &mut [u32]) -> Pen
    requires { Writable n (page pen vertices.old indexes.old) }
    ensures { page result vertices.new indexes.new ≡ written_as n (page pen vertices.old indexes.old) p }
{
    let at = pen.at;
    indexes[at] = n as u32;
    add_vertex(vertices, n, pen.count, p);
    Pen {
        at: at + 1,
        count: count_with(n, pen.count),
        ends: Some(ends_with(pen.ends, p)),
    }
}

// The place p, of the circumcenter `number` or of none, goes on with the ring.
pub fn ink(
    b: BoundingBox,
    centers: usize,
    pen: Pen,
    p: Point,
    number: u32,
    vertices: &mut [f64],
    indexes: &mut [u32],
) -> Pen
    requires { Ready centers (page pen vertices.old indexes.old) (inked b centers (page pen vertices.old indexes.old) p number) }
    ensures { page result vertices.new indexes.new ≡ inked b centers (page pen vertices.old indexes.old) p number }
{
    if repeats_last(pen, p) {
        return pen;
    }
    let n = number_for(b, centers, pen.count, p, number);
    write(pen, n, p, vertices, indexes)
}

// The circumcenter n at place p goes on with the ring: what is left of `ink` where there is a number.
pub fn ink_numbered(pen: Pen, p: Point, n: u32, indexes: &mut [u32]) -> Pen
    requires { (pen_on pen p).at ≤ length indexes.old }
    ensures { (result ≡ pen_on pen p) × (indexes.new ≡ entries_on pen p n indexes.old) }
{
    if repeats_last(pen, p) {
        return pen;
    }
    let at = pen.at;
    indexes[at] = n;
    Pen {
        at: at + 1,
        count: pen.count,
        ends: Some(ends_with(pen.ends, p)),
    }
}
