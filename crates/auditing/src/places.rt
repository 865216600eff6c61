// Whether two sites stand at one place, by a hash table with chains. The sites are taken in blocks: those of a block are inserted into buckets by their places,
// and each later site is looked up in its own bucket.
ghost use Rattle.std.specs.Prelude.{◌≡◌, ◌/◌, ◌≤◌, ◌<◌, length};
ghost use Rattle.ring_area.specs.lowest.Lowest.{lowest};
ghost use Rattle.auditing.specs.places.Places.{same_of, twin_at, has_twin};
ghost use Rattle.auditing.specs.places.Buckets.{bucket_of, twin_in, CanInsert, Inserted, InBucket, Visited, BlockIn};

use octets::patterns::pattern;
use plane::points::{Point, point_at};

// How many sites the table has at a time, and how many buckets.
const BLOCK: usize = 512;

const BUCKETS: usize = 512;

pub fn same_place(p: Point, q: Point) -> bool
    ensures { result ≡ same_of p q }
{
    (p.x == q.x) & (p.y == q.y)
}

// The first site before s at its place, or s.
pub fn first_twin(sites: &[f64], s: usize) -> usize
    requires { s < length sites.now / 2 }
    ensures { result ≡ lowest (twin_at sites.now s) s }
{
    let place = point_at(sites, s);
    (0..s)
        .find(|&j| same_place(place, point_at(sites, j)))
        .unwrap_or(s)
}

// The number of the first site before s at its place, where there is one.
pub fn twin_of(sites: &[f64], s: usize) -> u32
    requires { (s < length sites.now / 2) × (length sites.now / 2 ≤ 65536) }
    ensures { result ≡ lowest (twin_at sites.now s) s }
{
    first_twin(sites, s) as u32
}

// The bucket of a place. -0 + 0 is 0, so that equal places have one. Two primes, as patterns of whole numbers end in many zeros.
fn bucket(p: Point) -> usize
    ensures { result ≡ bucket_of p }
{
    let x = pattern(p.x + 0.0) % 2654435761;
    let y = pattern(p.y + 0.0) % 3266489917;
    ((x + y) % 512) as usize
}

fn wide(x: u16) -> usize
    ensures { result ≡ x }
{
    x as usize
}

// Whether one in the bucket m, that of s, stands at the place of s: along its chain, from the last one back.
fn lookup(heads: &[u16], links: &[u16], sites: &[f64], a: usize, s: usize, m: usize) -> bool
    requires { InBucket sites.now a s m heads.now links.now }
    ensures { result ≡ twin_in sites.now a s }
{
    let place = point_at(sites, s);
    let mut x = wide(heads[m]);
    while 0 < x {
        let k = x - 1;
        if same_place(place, point_at(sites, a + k)) {
            return true;
        }
        x = wide(links[k]);
    }
    false
}

// Inserts the next, k, in front of the chain of bucket m.
fn insert(heads: &mut [u16], links: &mut [u16], m: usize, k: usize)
    requires { CanInsert heads.old links.old m k }
    ensures { Inserted heads.old links.old m k heads.new links.new }
{
    links[k] = heads[m];
    heads[m] = (k + 1) as u16;
}

// Whether one of the block from a on, before s, stands at the place of s. If none does, s is inserted too while it is of the block.
fn visit(heads: &mut [u16], links: &mut [u16], sites: &[f64], a: usize, s: usize) -> bool
    requires { BlockIn sites.now a s heads.old links.old }
    ensures { Visited sites.now a s heads.new links.new result }
{
    let m = bucket(point_at(sites, s));
    if lookup(heads, links, sites, a, s, m) {
        return true;
    }
    let k = s - a;
    if k < BLOCK {
        insert(heads, links, m, k);
    }
    false
}

// The lowest site below `best` that has one of the block from a on before it, or `best`.
fn first_in_block(sites: &[f64], a: usize, best: usize) -> usize
    requires { (a < best) × (best ≤ length sites.now / 2) }
    ensures { result ≡ lowest (twin_in sites.now a) best }
{
    let mut heads = [0u16; BUCKETS];
    let mut links = [0u16; BLOCK];
    for s in a..best {
        if visit(&mut heads, &mut links, sites, a, s) {
            return s;
        }
    }
    best
}

// The lowest site that has one before it, or their number.
pub fn first_site_twin(sites: &[f64]) -> usize
    ensures { result ≡ lowest (has_twin sites.now) (length sites.now / 2) }
{
    let mut best = sites.len() / 2;
    let mut a = 0;
    // a while, since its end moves: a `for` over `step_by(BLOCK)` would need a test and a break beside it
    while a < best {
        best = first_in_block(sites, a, best);
        a += BLOCK;
    }
    best
}
