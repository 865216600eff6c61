// The change itself: triangles, half-edges and the table's four entries, in time that grows with how many half-edges end at the sites.
ghost use Rattle.std.specs.Prelude.{◌≡◌, ◌≢◌, ◌%◌, ◌<◌, length};
ghost use Rattle.base.specs.numbers.Numbers.{EMPTY};
ghost use Rattle.mesh.specs.Mesh.{pair_of};
ghost use Rattle.flipping.specs.Flip.{before_of, turned_sites, naming, relinked};
ghost use Rattle.flipping.specs.Entries.{lesser, least_round, gain_of, loss_of, flip_corners, entries_of, stored_four};
ghost use Rattle.flipping.specs.stores.Ready.{InFour, Linked, Tabled, FlipReady, Retabled, FlipChanged};

use crate::before;
use base::numbers::{EMPTY, wide};

// Four sites, or the table's entries of four sites: of the two that lose a half-edge, where a and b start, then of the two that gain one, where r and
// l start.
type Four = (u32, u32, u32, u32);

// The half-edge p, where there is one, names e.
fn name_back(halfedges: &mut [u32], p: u32, e: u32)
    requires { p ≢ EMPTY → p < length halfedges.old }
    ensures { halfedges.new ≡ naming halfedges.old p e }
{
    if p == EMPTY {
        return;
    }
    halfedges[wide(p)] = e;
}

// The pairs after the flip.
fn relink(halfedges: &mut [u32], a: usize, b: usize, r: usize, l: usize)
    requires { Linked halfedges.old a b r l }
    ensures { halfedges.new ≡ relinked halfedges.old a b r l }
{
    let p = halfedges[l];
    let o = halfedges[r];
    halfedges[a] = p;
    halfedges[b] = o;
    halfedges[r] = l as u32;
    halfedges[l] = r as u32;
    name_back(halfedges, p, a as u32);
    name_back(halfedges, o, b as u32);
}

// The triangles after the flip.
fn turn_sites(triangles: &mut [u32], a: usize, b: usize, r: usize, l: usize)
    requires { (a < length triangles.old) × (b < length triangles.old) × (r < length triangles.old) × (l < length triangles.old) }
    ensures { triangles.new ≡ turned_sites triangles.old a b r l }
{
    let y = triangles[l];
    let x = triangles[r];
    triangles[a] = y;
    triangles[b] = x;
}

fn less(x: u32, m: u32) -> u32
    ensures { result ≡ lesser x m }
{
    if x < m {
        return x;
    }
    m
}

// The least half-edge on the way round from `kept` to `lost`, which comes before it.
fn round(halfedges: &[u32], lost: u32, kept: u32) -> u32
    requires { length halfedges.now % 3 ≡ 0 }
    ensures { result ≡ least_round halfedges.now lost kept }
{
    let mut e = kept;
    let mut low = kept;
    for _ in 0..halfedges.len() {
        let at = wide(e);
        if halfedges.len() <= at {
            return low;
        }
        low = less(e, low);
        e = mesh::turn(halfedges, lost, at);
    }
    low
}

// The entry t of a site at which e ends from now on.
fn after_gain(halfedges: &[u32], t: u32, e: u32) -> u32
    requires { t < length halfedges.now }
    ensures { result ≡ gain_of halfedges.now t e }
{
    if halfedges[wide(t)] == EMPTY {
        return t;
    }
    less(e, t)
}

// The entry t of a site at which `lost` ends no more; `kept` takes its pair.
fn after_loss(halfedges: &[u32], t: u32, lost: u32, kept: u32) -> u32
    requires { (length halfedges.now % 3 ≡ 0) × (lost < length halfedges.now) }
    ensures { result ≡ loss_of halfedges.now t lost kept }
{
    if t != lost {
        return t;
    }
    if halfedges[wide(lost)] == EMPTY {
        return kept;
    }
    round(halfedges, lost, kept)
}

// The four sites.
fn corners(triangles: &[u32], a: usize, b: usize, r: usize, l: usize) -> Four
    requires { (a < length triangles.now) × (b < length triangles.now) × (r < length triangles.now) × (l < length triangles.now) }
    ensures { result ≡ flip_corners triangles.now a b r l }
{
    (triangles[a], triangles[b], triangles[r], triangles[l])
}

// Their entries after the flip, by the table of before it.
fn entries(halfedges: &[u32], work: &[u32], s: Four, a: u32, b: u32, r: u32, l: u32) -> Four
    requires { Tabled halfedges.now work.now s r l }
    ensures { result ≡ entries_of halfedges.now work.now s a b r l }
{
    let (p, q, x, y) = s;
    (
        after_loss(halfedges, work[wide(p)], r, b),
        after_loss(halfedges, work[wide(q)], l, a),
        after_gain(halfedges, work[wide(x)], l),
        after_gain(halfedges, work[wide(y)], r),
    )
}

// Four entries stored in a list.
fn put(list: &mut [u32], s: Four, v: Four)
    requires { InFour s (length list.old) }
    ensures { list.new ≡ stored_four list.old s v }
{
    list[wide(s.0)] = v.0;
    list[wide(s.1)] = v.1;
    list[wide(s.2)] = v.2;
    list[wide(s.3)] = v.3;
}

// The table's entries brought up to date, in the table and in the work slice, by the mesh as it was.
fn flip_tables(
    triangles: &[u32],
    halfedges: &[u32],
    table: &mut [u32],
    work: &mut [u32],
    a: usize,
    b: usize,
    r: usize,
    l: usize,
)
    requires { FlipReady triangles.now halfedges.now table.old work.old a b r l }
    ensures { Retabled triangles.now halfedges.now work.old table.old table.new a b r l
        × Retabled triangles.now halfedges.now work.old work.old work.new a b r l }
{
    let s = corners(triangles, a, b, r, l);
    let v = entries(halfedges, work, s, a as u32, b as u32, r as u32, l as u32);
    put(table, s, v);
    put(work, s, v);
}

// Half-edge a flipped in an accepted mesh; the work slice has its table.
pub fn change(
    triangles: &mut [u32],
    halfedges: &mut [u32],
    table: &mut [u32],
    work: &mut [u32],
    a: usize,
)
    requires { (a < length halfedges.old) × FlipReady triangles.old halfedges.old table.old work.old a (pair_of halfedges.old a)
        (before_of a) (before_of (pair_of halfedges.old a)) }
    ensures { FlipChanged triangles.old halfedges.old table.old work.old a
        triangles.new halfedges.new table.new work.new }
{
    let b = wide(halfedges[a]);
    let r = before(a);
    let l = before(b);
    flip_tables(triangles, halfedges, table, work, a, b, r, l);
    turn_sites(triangles, a, b, r, l);
    relink(halfedges, a, b, r, l);
}
