// How a near vertex is found: those that were added are chained in buckets by their places on a grid, in the tail of the index list (specs/buckets/Buckets.antt). Each entry there has the marks of
// all from it back, so that most searches end at the head. A point within 2^-48 of a border of the grid, and a vertex past the links, is searched for one by one.
ghost use Rattle.std.specs.Prelude.{◌≡◌, cond, ◌-◌, ◌*◌, ◌≤◌, ◌<◌, min, length, drop};
ghost use Rattle.plane.specs.points.Flat.{points_from};
ghost use Rattle.vertices.specs.Add.{near_pt, find_near};
ghost use Rattle.vertices.specs.Store.{Holds};
ghost use Rattle.vertices.specs.buckets.Buckets.{low_of, mid_of, high_of, narrow_of, mix_of, entry_with, heads_of};
ghost use Rattle.vertices.specs.buckets.Steps.{BucketsFree, HomeAt, HomeOf, HomeIn, InsertsIn, BucketChain};

use base::numbers::{LARGE, wide};
use octets::patterns::pattern;
use plane::points::{Point, abs_diff_eq, point_at};
use root::magnitude;

// 2^-49, 2^-48 and 2^21.
const REACH: f64 = 1.7763568394002505e-15;

const TWICE: f64 = 3.552713678800501e-15;

const SHIFT: f64 = 2097152.0;

// Where a point belongs: its bucket, the digit of an entry that is its mark, and whether all that is near it has both.
#[derive(Clone, Copy)]
pub struct Home {
    pub bucket: usize,
    pub mark: usize,
    pub narrow: bool,
}

fn near_point(p: Point, q: Point) -> bool
    ensures { result ≡ near_pt p q }
{
    if abs_diff_eq(p.x, q.x) {
        return abs_diff_eq(p.y, q.y);
    }
    false
}

// The first of the vertices from `from` on that is near p, else `count`.
fn find_near(vertices: &[f64], from: usize, count: usize, p: Point) -> usize
    requires { (from ≤ count) × (2 * count ≤ length vertices.now) }
    ensures value { result ≡ find_near p (points_from vertices.now from (count - from)) from }
    ensures upper_bound { result ≤ count }
{
    for i in from..count {
        if near_point(point_at(vertices, i), p) {
            return i;
        }
    }
    count
}

// The place of x on the grid, and the lowest and the highest of what is near x.
fn middle(x: f64) -> f64
    ensures { result ≡ mid_of x }
{
    magnitude(x) + REACH + SHIFT
}

fn low(x: f64) -> f64
    ensures { result ≡ low_of x }
{
    magnitude(x) + 0.0 + SHIFT
}

fn high(x: f64) -> f64
    ensures { result ≡ high_of x }
{
    magnitude(x) + TWICE + SHIFT
}

// Whether all that is near x has one place.
fn narrow(x: f64) -> bool
    ensures { result ≡ narrow_of x }
{
    let a = low(x);
    let b = high(x);
    (a == b) & (b <= LARGE)
}

// 22 digits of two patterns, all of theirs mixed.
fn mix(a: u64, b: u64) -> u64
    ensures { result ≡ mix_of a b }
{
    let x = a % 4294967296 + (a / 4294967296) * 40503;
    let y = (b % 4294967296) * 60493 + (b / 4294967296) * 51749;
    (((x + y) % 4294967296) * 2654435769 / 1024) % 4194304
}

fn broad(x: usize) -> u64
    ensures { result ≡ x }
{
    x as u64
}

// Of so many buckets that of two places on the grid, and their mark.
fn home_at(heads: usize, x: f64, y: f64, narrow: bool) -> Home
    requires { heads ≤ 262144 }
    ensures { HomeAt heads x y narrow result }
{
    let z = mix(pattern(x), pattern(y));
    Home {
        bucket: (z * broad(heads) / 4194304) as usize,
        mark: (20 + z % 12) as usize,
        narrow: narrow,
    }
}

// Where p belongs, by its place; where that is the lowest of what is near too, the sum is made once.
pub fn home_of(heads: usize, p: Point) -> Home
    requires { heads ≤ 262144 }
    ensures { HomeOf heads p result }
{
    if narrow(p.x) & narrow(p.y) {
        return home_at(heads, low(p.x), low(p.y), true);
    }
    home_at(heads, middle(p.x), middle(p.y), false)
}

// How many buckets there are in so many entries from `limit` on.
pub fn heads_in(entries: usize, limit: usize) -> usize
    ensures { result ≡ heads_of (entries - limit) }
{
    if entries <= limit {
        return 0;
    }
    let room = entries - limit;
    if 1048576 < room {
        return 262144;
    }
    room / 4
}

// Empties all buckets.
pub fn empty(indexes: &mut [u32], limit: usize)
    ensures { BucketsFree limit indexes.old indexes.new }
{
    let heads = heads_in(indexes.len(), limit);
    if 0 < heads {
        indexes[limit..limit + heads].fill(0);
    }
}

// The entry of vertex k in front of entry e, with the marks of both.
fn entry(e: u32, k: usize, mark: usize) -> u32
    requires { (k < 786432) × (mark < 32) }
    ensures { result ≡ entry_with e k mark }
{
    (e / 1048576 * 1048576 + (k + 1) as u32) | (1u32 << mark)
}

// Inserts vertex k after the circumcenters into bucket m, with its mark, if it has a link.
pub fn insert(indexes: &mut [u32], limit: usize, k: usize, m: usize, mark: usize)
    requires { HomeIn (heads_of (length indexes.old - limit)) m mark }
    ensures { InsertsIn limit k m mark indexes.old indexes.new }
{
    let heads = heads_in(indexes.len(), limit);
    if k < 3 * heads {
        let e = indexes[limit + m];
        indexes[limit + (heads + k)] = e;
        indexes[limit + m] = entry(e, k, mark);
    }
}

fn choose(c: bool, x: usize, y: usize) -> usize
    ensures { result ≡ cond c x y }
{
    if c { x } else { y }
}

// The first vertex near p among those that are chained, which are so many, from the last one in the bucket m back, as long as there are some of the mark; else the number after them.
fn in_chain(
    vertices: &[f64],
    indexes: &[u32],
    limit: usize,
    heads: usize,
    centers: usize,
    inserted: usize,
    m: usize,
    mark: usize,
    p: Point,
) -> usize
    requires { BucketChain vertices.now indexes.now limit heads centers inserted m mark p }
    ensures { result ≡ find_near p (points_from vertices.now centers inserted) centers }
{
    let mut best = centers + inserted;
    let mut e = indexes[limit + m];
    while (e >> mark) % 2 == 1 {
        let k = wide(e % 1048576) - 1;
        let i = centers + k;
        let near = near_point(point_at(vertices, i), p);
        best = choose(near, i, best);
        e = indexes[limit + (heads + k)];
    }
    best
}

// The first vertex near p, which belongs there, after the circumcenters, else `count`.
pub fn find(
    vertices: &[f64],
    indexes: &[u32],
    limit: usize,
    centers: usize,
    count: usize,
    there: Home,
    p: Point,
) -> usize
    requires holds { Holds centers count vertices.now (drop limit indexes.now) }
    requires home_of { HomeOf (heads_of (length indexes.now - limit)) p there }
    ensures value { result ≡ find_near p (points_from vertices.now centers (count - centers)) centers }
    ensures upper_bound { result ≤ count }
{
    let heads = heads_in(indexes.len(), limit);
    if heads == 0 {
        return find_near(vertices, centers, count, p);
    }
    if there.narrow {
        let inserted = (count - centers).min(3 * heads);
        let i = in_chain(
            vertices,
            indexes,
            limit,
            heads,
            centers,
            inserted,
            there.bucket,
            there.mark,
            p,
        );
        if i < centers + inserted {
            return i;
        }
        return find_near(vertices, centers + inserted, count, p);
    }
    find_near(vertices, centers, count, p)
}
