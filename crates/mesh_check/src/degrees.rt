// Rule 10 by walks of known length: the leftmost table is filled from above, each entry with the number of half-edges that end at its site, so that no walk waits for the end of the one before.
ghost use Rattle.std.specs.Prelude.{◌≡◌, refl, true, ℕ, ◌+◌, ◌*◌, ◌/◌, ◌%◌, ◌<◌, ◌≤◌, length, get_or};
ghost use Rattle.mesh.specs.Mesh.{next_of, whole_of, Paired};
ghost use Rattle.mesh_check.specs.degrees.laws.Packing.{lefts_start, lefts_pass, lefts_turn};
ghost use Rattle.mesh_check.specs.degrees.Packed.{EndsApart, Lowests, Leftmosts, spare, Unpacks, LongWalks};

use crate::unpaired::{Entries, take_unpaired};
use base::numbers::{EMPTY, wide};

// A packed entry is 524,288 times what is left of 8,191 when the site's half-edges are taken off it, and the half-edge; one of a site without any is `EMPTY`.
const PLACES: u32 = 524288;

const ENDS: u32 = 8191;

// Half-edge e, lower than all before, is packed at the site where it ends and its next one, k, starts. Answers whether the site has not too many.
fn pack_end(triangles: &[u32], work: &mut [u32], e: usize, k: usize) -> bool
    requires { (length triangles.now < 524288) × (e < length triangles.now) × (k < length triangles.now) × (k ≡ next_of e)
        × (get_or triangles.now k 0 < length work.old) × Lowests triangles.now (e + 1) work.old }
    ensures { result ≡ true → Lowests triangles.now e work.new }
{
    let s = wide(triangles[k]);
    let left = work[s] / PLACES;
    if left == 0 {
        return false;
    }
    work[s] = (left - 1) * PLACES + e as u32;
    true
}

// The same of the three half-edges of triangle t.
fn pack_ends(triangles: &[u32], work: &mut [u32], t: usize) -> bool
    requires { (length triangles.now < 524288) × ((k : ℕ) → k < length triangles.now → get_or triangles.now k 0 < length work.old)
        × (t < length triangles.now / 3) × Lowests triangles.now (3 * t + 3) work.old }
    ensures { result ≡ true → Lowests triangles.now (3 * t) work.new }
{
    if !pack_end(triangles, work, 3 * t + 2, 3 * t) {
        return false;
    }
    if !pack_end(triangles, work, 3 * t + 1, 3 * t + 2) {
        return false;
    }
    pack_end(triangles, work, 3 * t, 3 * t + 1)
}

// Each site's lowest half-edge, packed. Answers whether no site has too many.
fn pack_lowest(triangles: &[u32], work: &mut [u32]) -> bool
    requires { (length triangles.now % 3 ≡ 0) × (length triangles.now < 524288) × ((k : ℕ) → k < length triangles.now → get_or triangles.now k 0 < length work.old) }
    ensures { result ≡ true → Lowests triangles.now 0 work.new }
{
    mesh::clear(work);
    for t in (0..triangles.len() / 3).rev() {
        if !pack_ends(triangles, work, t) {
            return false;
        }
    }
    true
}

// A packed entry: the number stands, and the half-edge is another.
struct Packed;

impl Entries for Packed {
    ghost limit = { 524288 };

    ghost lowests = { Lowests };

    ghost lefts = { Leftmosts };

    ghost holding = { λ m e. m / 524288 * 524288 + e };

    ghost start = { lefts_start };

    ghost pass = { lefts_pass };

    ghost turn = { λ tri he work n s few ln g u q i. lefts_turn tri he work n s _ few ln g u q refl i };

    fn hold(entry: u32, e: usize) -> u32 {
        entry / PLACES * PLACES + e as u32
    }
}

// Whether the walk from t has d entries at least, or one less if t is paired: where d half-edges end at its site, all of them paired, just one is never left out.
fn reaches(halfedges: &[u32], t: u32, d: usize) -> bool
    requires { length halfedges.now % 3 ≡ 0 }
    ensures { result ≡ true → d ≤ length (whole_of halfedges.now t) + spare halfedges.now t }
{
    let mut e = wide(t);
    if halfedges.len() <= e {
        return false;
    }
    if halfedges.len() < d {
        return false;
    }
    if halfedges[e] == EMPTY {
        if d < 2 {
            return true;
        }
        e = wide(mesh::turn(halfedges, t, e));
        if halfedges.len() <= e {
            return false;
        }
    }
    for _n in 2..d {
        e = wide(mesh::turn(halfedges, t, e));
        if halfedges.len() <= e {
            return false;
        }
    }
    true
}

// Takes the entries apart. Answers whether from each of them as many half-edges are reached as it says, or one less from a paired one.
fn unpack(halfedges: &[u32], work: &mut [u32]) -> bool
    requires { length halfedges.now % 3 ≡ 0 }
    ensures { result ≡ true → Unpacks halfedges.now work.old work.new (length work.old) }
{
    for entry in work.iter_mut() {
        let left = *entry / PLACES;
        if left < ENDS {
            let t = *entry % PLACES;
            *entry = t;
            if !reaches(halfedges, t, wide(ENDS - left)) {
                return false;
            }
        }
    }
    true
}

// Whether rule 10 holds, with the leftmost table left in the work slice; no says nothing.
pub fn whole_fans(triangles: &[u32], halfedges: &[u32], work: &mut [u32]) -> bool
    requires { (length triangles.now % 3 ≡ 0) × (length halfedges.now ≡ length triangles.now)
        × ((k : ℕ) → k < length triangles.now → get_or triangles.now k 0 < length work.old) × Paired triangles.now halfedges.now × EndsApart triangles.now }
    ensures { result ≡ true → LongWalks triangles.now halfedges.now (length work.old) work.new }
{
    if PLACES as usize <= triangles.len() {
        return false;
    }
    if !pack_lowest(triangles, work) {
        return false;
    }
    take_unpaired::<Packed>(triangles, halfedges, work);
    unpack(halfedges, work)
}
