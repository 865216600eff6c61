// The sides of all rings: whether each way between two places comes as often as the other, and how often the top right corner of the box is left along the top edge. The sides are chained in
// buckets by the two places between which they run, in lent work: three words to an entry (specs/Chains.antt).
ghost use Rattle.std.specs.Prelude.{◌≡◌, true, ◌&&◌, ◌+◌, ◌-◌, ◌*◌, ◌^◌, ◌≤◌, ◌<◌, length, get_or};
ghost use Rattle.ring_area.specs.lowest.Lowest.{lowest};
ghost use Rattle.plane.specs.points.Flat.{point_at};
ghost use Rattle.auditing.specs.places.Places.{same_of};
ghost use Rattle.certifying.specs.sides.Sides.{ring_ends, along_of, surplus_at, leaves_of, left_once};
ghost use Rattle.certifying.specs.sides.Chains.{place_number, side_bucket, laid_ends, SideSafe, SidesIn, ChainedTo, WaysOf, RingLaid, LaySafe, LaidTo, ChainedMore, InsertSafe, InsertsAll};
ghost use Rattle.certifying.specs.sides.Chains.{RunsBack, EvenIn, FairIn, NumberSafe, FourSafe, Turned, TwoPairs};

use crate::chains;
use crate::chains::push_front;
use auditing::places::same_place;
use base::numbers::wide;
use octets::patterns::pattern;
use plane::boxes::BoundingBox;
use plane::points::{Point, point_at};

// Two places of a side.
#[derive(Clone, Copy)]
pub struct SideEnds {
    pub from: Point,
    pub to: Point,
}

// How many sides run one way, and how many the other.
#[derive(Clone, Copy)]
struct Ways {
    there: usize,
    back: usize,
}

// Both ends on the same edge of the box.
fn is_along(bounds: BoundingBox, p: Point, q: Point) -> bool
    ensures { result ≡ along_of bounds p q }
{
    ((p.x == bounds.left) & (q.x == bounds.left))
        | ((p.x == bounds.right) & (q.x == bounds.right))
        | ((p.y == bounds.top) & (q.y == bounds.top))
        | ((p.y == bounds.bottom) & (q.y == bounds.bottom))
}

// From the top right corner along the top edge.
fn leaves(bounds: BoundingBox, p: Point, q: Point) -> bool
    ensures { result ≡ leaves_of bounds p q }
{
    (p.x == bounds.right) & (p.y == bounds.top) & (q.y == bounds.top)
}

// Two primes, as patterns of whole numbers end in many zeros.
pub fn place_number(p: Point) -> u64
    ensures { (result ≡ place_number p) × (result < 2 ^ 33) }
{
    pattern(p.x + 0.0) % 2654435761 + pattern(p.y + 0.0) % 3266489917
}

// The bucket of the sides between p and q, of so many.
fn bucket(p: Point, q: Point, count: usize) -> usize
    requires { (0 < count) × (count ≤ 2 ^ 24) }
    ensures { (result ≡ side_bucket count p q) × (result < count) }
{
    chains::bucket(place_number(p) + place_number(q), count)
}

// Side k.
fn side_at(work: &[u32], vertices: &[f64], indexes: &[u32], k: usize) -> SideEnds
    requires { SideSafe vertices.now indexes.now k work.now }
    ensures { (result.from ≡ point_at vertices.now (get_or indexes.now k 0)) × (result.to ≡ point_at vertices.now (get_or work.now (3 * k + 2) 0)) }
{
    let from = point_at(vertices, wide(indexes[k]));
    let to = point_at(vertices, wide(work[3 * k + 2]));
    SideEnds { from, to }
}

// Whether the side runs from p to q.
fn runs(side: SideEnds, p: Point, q: Point) -> bool
    ensures { result ≡ (same_of p side.from && same_of q side.to) }
{
    same_place(p, side.from) & same_place(q, side.to)
}

// How many run from p to q, and back: those that are chained in their bucket.
fn count_ways(
    work: &[u32],
    vertices: &[f64],
    indexes: &[u32],
    count: usize,
    p: Point,
    q: Point,
) -> Ways
    requires { (0 < count) × ChainedTo vertices.now indexes.now (laid_ends work.now count) count count work.now }
    ensures { WaysOf vertices.now indexes.now (laid_ends work.now count) count p q result.there result.back }
{
    let m = bucket(p, q, count);
    let mut there = 0;
    let mut back = 0;
    let mut x = wide(work[3 * m]);
    while 0 < x {
        let k = x - 1;
        let side = side_at(work, vertices, indexes, k);
        there += usize::from(runs(side, p, q));
        back += usize::from(runs(side, q, p));
        x = wide(work[3 * k + 1]);
    }
    Ways { there, back }
}

// Whether more run as side k does than back.
fn is_surplus(
    work: &[u32],
    vertices: &[f64],
    indexes: &[u32],
    bounds: BoundingBox,
    count: usize,
    k: usize,
) -> bool
    requires { (k < count) × ChainedTo vertices.now indexes.now (laid_ends work.now count) count count work.now }
    ensures { result ≡ surplus_at bounds vertices.now indexes.now (laid_ends work.now count) count k }
{
    let side = side_at(work, vertices, indexes, k);
    if is_along(bounds, side.from, side.to) {
        return false;
    }
    let w = count_ways(work, vertices, indexes, count, side.from, side.to);
    w.back < w.there
}

// Whether t runs back, and not there, as s does.
fn answers(s: SideEnds, t: SideEnds) -> bool
    ensures { result ≡ true → RunsBack s.from s.to t.from t.to }
{
    if runs(t, s.from, s.to) {
        return false;
    }
    runs(t, s.to, s.from)
}

// Whether two sides are chained in bucket m, one there and one back, by their places.
fn is_pair(work: &[u32], vertices: &[f64], indexes: &[u32], count: usize, m: usize) -> bool
    requires { (m < count) × ChainedTo vertices.now indexes.now (laid_ends work.now count) count count work.now }
    ensures { result ≡ true → EvenIn vertices.now indexes.now (laid_ends work.now count) count m }
{
    let x = wide(work[3 * m]);
    if x == 0 {
        return false;
    }
    let y = wide(work[3 * (x - 1) + 1]);
    if y == 0 {
        return false;
    }
    if 0 < work[3 * (y - 1) + 1] {
        return false;
    }
    let s = side_at(work, vertices, indexes, x - 1);
    let t = side_at(work, vertices, indexes, y - 1);
    if answers(s, t) {
        return answers(t, s);
    }
    false
}

// The side before side k in its bucket, as one more than its entry, or 0.
fn prior(work: &[u32], k: usize) -> usize
    requires { (k < 2 ^ 24) × (3 * k + 1 < length work.now) }
    ensures { result ≡ get_or work.now (3 * k + 1) 0 }
{
    wide(work[3 * k + 1])
}

// Where side k ends.
fn end_of(work: &[u32], k: usize) -> u32
    requires { (k < 2 ^ 24) × (3 * k + 2 < length work.now) }
    ensures { result ≡ get_or work.now (3 * k + 2) 0 }
{
    work[3 * k + 2]
}

// Whether sides j and k are the same one there and back, by the numbers of their vertices.
fn is_turned(work: &[u32], indexes: &[u32], j: usize, k: usize) -> bool
    requires { NumberSafe indexes.now work.now j × NumberSafe indexes.now work.now k }
    ensures { result ≡ true → Turned indexes.now work.now j k }
{
    let a = end_of(work, j);
    let b = end_of(work, k);
    if indexes[j] != b {
        return false;
    }
    if indexes[k] != a {
        return false;
    }
    true
}

// Whether four are two such pairs.
fn is_two_pairs(work: &[u32], indexes: &[u32], i: usize, j: usize, k: usize, l: usize) -> bool
    requires { FourSafe indexes.now work.now i j k l }
    ensures { result ≡ true → TwoPairs indexes.now work.now i j k l }
{
    if is_turned(work, indexes, i, j) {
        return is_turned(work, indexes, k, l);
    }
    if is_turned(work, indexes, i, k) {
        return is_turned(work, indexes, j, l);
    }
    if is_turned(work, indexes, i, l) {
        return is_turned(work, indexes, j, k);
    }
    false
}

// Whether two or four sides are chained in bucket m that are one or two such pairs: what nearly every bucket has where pieces share their vertices. No coordinate is read.
fn is_even(work: &[u32], vertices: &[f64], indexes: &[u32], count: usize, m: usize) -> bool
    requires { (m < count) × ChainedTo vertices.now indexes.now (laid_ends work.now count) count count work.now }
    ensures { result ≡ true → EvenIn vertices.now indexes.now (laid_ends work.now count) count m }
{
    let x = wide(work[3 * m]);
    if x == 0 {
        return false;
    }
    let y = prior(work, x - 1);
    if y == 0 {
        return false;
    }
    let z = prior(work, y - 1);
    if z == 0 {
        return is_turned(work, indexes, x - 1, y - 1);
    }
    let t = prior(work, z - 1);
    if t == 0 {
        return false;
    }
    if 0 < prior(work, t - 1) {
        return false;
    }
    is_two_pairs(work, indexes, x - 1, y - 1, z - 1, t - 1)
}

// Whether no side that is chained in bucket m has more run its way than back.
fn is_fair(
    work: &[u32],
    vertices: &[f64],
    indexes: &[u32],
    bounds: BoundingBox,
    count: usize,
    m: usize,
) -> bool
    requires { (m < count) × ChainedTo vertices.now indexes.now (laid_ends work.now count) count count work.now }
    ensures { result ≡ true → FairIn bounds vertices.now indexes.now (laid_ends work.now count) count m }
{
    if is_even(work, vertices, indexes, count, m) {
        return true;
    }
    if is_pair(work, vertices, indexes, count, m) {
        return true;
    }
    let mut x = wide(work[3 * m]);
    while 0 < x {
        let k = x - 1;
        if is_surplus(work, vertices, indexes, bounds, count, k) {
            return false;
        }
        x = wide(work[3 * k + 1]);
    }
    true
}

// Whether no side has, bucket by bucket: each chain is walked once, while its sides are at hand.
fn all_fair(
    work: &[u32],
    vertices: &[f64],
    indexes: &[u32],
    bounds: BoundingBox,
    count: usize,
) -> bool
    requires { ChainedTo vertices.now indexes.now (laid_ends work.now count) count count work.now }
    ensures { result ≡ true
        → count ≡ lowest (surplus_at bounds vertices.now indexes.now (laid_ends work.now count) count) count }
{
    (0..count).all(|m| is_fair(work, vertices, indexes, bounds, count, m))
}

// The first side of which more run its way than back, or their number. They are asked one by one only where there is one.
pub fn first_surplus(
    work: &[u32],
    vertices: &[f64],
    indexes: &[u32],
    bounds: BoundingBox,
    count: usize,
) -> usize
    requires { ChainedTo vertices.now indexes.now (laid_ends work.now count) count count work.now }
    ensures { result ≡ lowest (surplus_at bounds vertices.now indexes.now (laid_ends work.now count) count) count }
{
    if all_fair(work, vertices, indexes, bounds, count) {
        return count;
    }
    (0..count)
        .find(|&k| is_surplus(work, vertices, indexes, bounds, count, k))
        .unwrap_or(count)
}

// Whether the top right corner is left once more than it is reached.
pub fn left_once(
    work: &[u32],
    vertices: &[f64],
    indexes: &[u32],
    bounds: BoundingBox,
    count: usize,
) -> bool
    requires { SidesIn vertices.now indexes.now (laid_ends work.now count) count work.now }
    ensures { result ≡ left_once bounds vertices.now indexes.now (laid_ends work.now count) count }
{
    let mut left = 0;
    let mut reached = 0;
    for k in 0..count {
        let side = side_at(work, vertices, indexes, k);
        left += usize::from(leaves(bounds, side.from, side.to));
        reached += usize::from(leaves(bounds, side.to, side.from));
    }
    left == reached + 1
}

// Where the side from corner i of a ring ends.
fn end_at(cell: &[u32], i: usize) -> u32
    requires { i < length cell.now }
    ensures { result ≡ get_or (ring_ends cell.now) i 0 }
{
    if i + 1 < cell.len() {
        return cell[i + 1];
    }
    cell[0]
}

// Lays the ends of a ring from entry `base` on, and empties the buckets beside them.
fn lay_ring(work: &mut [u32], cell: &[u32], base: usize)
    requires { (3 * (base + length cell.now) ≤ length work.old) × (base + length cell.now ≤ 2 ^ 24) }
    ensures { RingLaid base cell.now (length cell.now) work.old work.new }
{
    for i in 0..cell.len() {
        let k = base + i;
        work[3 * k] = 0;
        work[3 * k + 2] = end_at(cell, i);
    }
}

// Lays the ends of all rings.
fn lay(work: &mut [u32], offsets: &[u32], indexes: &[u32])
    requires { LaySafe offsets.now indexes.now work.old }
    ensures { LaidTo offsets.now indexes.now (length offsets.now - 1) work.old work.new }
{
    let count = offsets.len() - 1;
    for s in 0..count {
        lay_ring(
            work,
            walks::shared::cell(offsets, indexes, s),
            wide(offsets[s]),
        );
    }
}

// Inserts side k.
fn insert(work: &mut [u32], vertices: &[f64], indexes: &[u32], count: usize, k: usize)
    requires { (k < count) × ChainedTo vertices.now indexes.now (laid_ends work.old count) count k work.old }
    ensures { ChainedMore vertices.now indexes.now count (k + 1) work.old work.new }
{
    let side = side_at(work, vertices, indexes, k);
    let m = bucket(side.from, side.to, count);
    push_front::<3>(work, k, m);
}

// Lays and inserts all sides.
pub fn insert_all(
    work: &mut [u32],
    vertices: &[f64],
    offsets: &[u32],
    indexes: &[u32],
    count: usize,
)
    requires { InsertSafe vertices.now offsets.now indexes.now count work.old }
    ensures { InsertsAll vertices.now offsets.now indexes.now count work.old work.new }
{
    lay(work, offsets, indexes);
    for k in 0..count {
        insert(work, vertices, indexes, count, k);
    }
}
