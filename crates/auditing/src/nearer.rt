// Whether each corner of each piece is as near to its own site as to those that it is held against, by the bisector and within the tolerance.
ghost use Rattle.std.specs.Prelude.{◌≡◌, true, ◌⊎◌, ◌+◌, ◌*◌, ◌/◌, ◌≤◌, ◌<◌, length};
ghost use Rattle.ring_area.specs.lowest.Lowest.{lowest};
ghost use Rattle.plane.specs.points.Flat.{point_at};
ghost use Rattle.walks.specs.shared.Cells.{Cells, cell_of};
ghost use Rattle.arguments.specs.entries.Named.{EntriesNamed};
ghost use Rattle.auditing.specs.nearer.Nearer.{tolerance_of, far_of, beyond, no_lists, other_at, held_count, beyond_at, nearer_at, corner_nearer, cell_nearer, site_nearer};
ghost use Rattle.auditing.specs.nearer.Steps.{HeldNames, HeldKept, PiecesKept};

use plane::boxes::BoundingBox;
use plane::points::{Point, point_at};
use root::whole_root::LEAD;

// 2^-bits.
pub fn tolerance(bits: u64) -> f64
    requires { bits ≤ 52 }
    ensures { result ≡ tolerance_of bits }
{
    f64::from_bits((1023 - bits) * LEAD)
}

// Of the box's two sides together.
pub fn far(bounds: BoundingBox, bits: u64) -> f64
    requires { bits ≤ 52 }
    ensures { result ≡ far_of bounds bits }
{
    (plane::boxes::width(bounds) + plane::boxes::height(bounds)) * tolerance(bits)
}

// Whether v, a corner of the piece of s, is beyond the bisector with o.
pub fn is_beyond(far: f64, v: Point, s: Point, o: Point) -> bool
    ensures { result ≡ beyond far v s o }
{
    let x = o.x - s.x;
    let y = o.y - s.y;
    let past = x * ((v.x - s.x) + (v.x - o.x)) + y * ((v.y - s.y) + (v.y - o.y));
    past > far * (root::magnitude(x) + root::magnitude(y))
}

// Whether every piece is held against all sites.
pub fn no_lists(starts: &[u32], others: &[u32]) -> bool
    ensures { result ≡ no_lists starts.now others.now }
{
    (starts.len() == 0) & (others.len() == 0)
}

// The sites that the piece of s is held against, where there are lists.
pub fn held<'a>(starts: &[u32], others: &'a [u32], s: usize) -> &'a [u32]
    requires { (no_lists starts.now others.now ≡ true) ⊎ (Cells starts.now (length others.now) × (s + 1 < length starts.now)) }
    ensures { result.now ≡ cell_of starts.now others.now s }
{
    if no_lists(starts, others) {
        return others;
    }
    walks::shared::cell(starts, others, s)
}

// The site at place j of those.
pub fn other_at(all: bool, part: &[u32], j: usize) -> usize
    requires { (all ≡ true) ⊎ (j < length part.now) }
    ensures { result ≡ other_at all part.now j }
{
    if all {
        return j;
    }
    base::numbers::wide(part[j])
}

fn held_count(all: bool, part: &[u32], count: usize) -> usize
    ensures { result ≡ held_count all part.now count }
{
    if all {
        return count;
    }
    part.len()
}

// Whether the corner is nearer to the site at place j of those. The site s is read once for all of them.
fn beyond_at(
    far: f64,
    corner: Point,
    sites: &[f64],
    s: usize,
    site: Point,
    part: &[u32],
    all: bool,
    j: usize,
) -> bool
    requires { HeldNames sites.now s part.now all × (j < held_count all part.now (length sites.now / 2)) × (site ≡ point_at sites.now s) }
    ensures { result ≡ beyond_at far corner sites.now s part.now all j }
{
    is_beyond(far, corner, site, point_at(sites, other_at(all, part, j)))
}

// The first of those that the corner is nearer to, or their number.
pub fn first_beyond(
    far: f64,
    corner: Point,
    sites: &[f64],
    s: usize,
    part: &[u32],
    all: bool,
) -> usize
    requires { HeldNames sites.now s part.now all }
    ensures { result ≡ lowest (beyond_at far corner sites.now s part.now all) (held_count all part.now (length sites.now / 2)) }
{
    let site = point_at(sites, s);
    let count = held_count(all, part, sites.len() / 2);
    (0..count)
        .find(|&j| beyond_at(far, corner, sites, s, site, part, all, j))
        .unwrap_or(count)
}

// Whether there is one, of the corner that an entry names.
fn is_nearer(
    far: f64,
    vertices: &[f64],
    entry: u32,
    sites: &[f64],
    s: usize,
    part: &[u32],
    all: bool,
) -> bool
    requires { HeldNames sites.now s part.now all × (2 * entry + 1 < length vertices.now) }
    ensures { result ≡ nearer_at far (point_at vertices.now entry) sites.now s part.now all }
{
    let corner = point_at(vertices, base::numbers::wide(entry));
    first_beyond(far, corner, sites, s, part, all) < held_count(all, part, sites.len() / 2)
}

// The first corner of the piece of s that is nearer to another site, or their number.
pub fn first_nearer(
    far: f64,
    sites: &[f64],
    s: usize,
    part: &[u32],
    all: bool,
    vertices: &[f64],
    entries: &[u32],
) -> usize
    requires { HeldNames sites.now s part.now all × EntriesNamed entries.now (length vertices.now / 2) }
    ensures { result ≡ lowest (corner_nearer far sites.now s part.now all vertices.now entries.now) (length entries.now) }
{
    entries
        .iter()
        .position(|&entry| is_nearer(far, vertices, entry, sites, s, part, all))
        .unwrap_or(entries.len())
}

// Whether there is one.
fn cell_nearer(
    far: f64,
    sites: &[f64],
    s: usize,
    part: &[u32],
    all: bool,
    vertices: &[f64],
    entries: &[u32],
) -> bool
    requires { HeldNames sites.now s part.now all × EntriesNamed entries.now (length vertices.now / 2) }
    ensures { result ≡ cell_nearer far sites.now s part.now all vertices.now entries.now }
{
    first_nearer(far, sites, s, part, all, vertices, entries) < entries.len()
}

// The same of the piece of s in the lists.
fn site_nearer(
    far: f64,
    sites: &[f64],
    starts: &[u32],
    others: &[u32],
    vertices: &[f64],
    offsets: &[u32],
    indexes: &[u32],
    s: usize,
) -> bool
    requires { HeldKept sites.now starts.now others.now × PiecesKept sites.now vertices.now offsets.now indexes.now × (s < length sites.now / 2) }
    ensures { result ≡ site_nearer far sites.now starts.now others.now vertices.now offsets.now indexes.now s }
{
    let all = no_lists(starts, others);
    let part = held(starts, others, s);
    let entries = walks::shared::cell(offsets, indexes, s);
    cell_nearer(far, sites, s, part, all, vertices, entries)
}

// The lowest site whose piece has such a corner, or their number.
pub fn first_site_nearer(
    far: f64,
    sites: &[f64],
    starts: &[u32],
    others: &[u32],
    vertices: &[f64],
    offsets: &[u32],
    indexes: &[u32],
) -> usize
    requires { HeldKept sites.now starts.now others.now × PiecesKept sites.now vertices.now offsets.now indexes.now }
    ensures { result ≡ lowest (site_nearer far sites.now starts.now others.now vertices.now offsets.now indexes.now)
        (length sites.now / 2) }
{
    let count = sites.len() / 2;
    (0..count)
        .find(|&s| { site_nearer(far, sites, starts, others, vertices, offsets, indexes, s) })
        .unwrap_or(count)
}
