// The second pass over a table of the lowest half-edge of each site: an unpaired one takes its place. What an entry holds besides its half-edge is the caller's.
ghost use Rattle.std.specs.Prelude.{◌≡◌, ◌≢◌, List, ℕ, ◌+◌, ◌*◌, ◌/◌, ◌%◌, ◌<◌, length, get_or, set};
ghost use Rattle.base.specs.numbers.Numbers.{EMPTY};
ghost use Rattle.mesh.specs.Mesh.{next_of, end_of, pair_of};

use base::numbers::{EMPTY, wide};

// How an entry holds a half-edge below the limit: a table whose lowest ones from n on are in place, one whose unpaired ones below n are too, and an entry with
// half-edge e in the place of its own.
pub trait Entries {
    ghost limit: { ℕ };

    ghost lowests: { List ℕ → ℕ → List ℕ → Type 0 };

    ghost lefts: { List ℕ → List ℕ → ℕ → List ℕ → Type 0 };

    ghost holding: { ℕ → ℕ → ℕ };

    fn hold(entry: u32, e: usize) -> u32
        requires { e < limit }
        ensures { result ≡ holding entry e };

    ghost start: { (tri he work : List ℕ) → lowests tri 0 work → lefts tri he 0 work };

    ghost pass: { (tri he work : List ℕ) (n : ℕ) → lefts tri he n work → pair_of he n ≢ EMPTY → lefts tri he (n + 1) work };

    ghost turn: { (tri he work : List ℕ) (n s : ℕ) → length tri < limit → n < length tri → lefts tri he n work → pair_of he n ≡ EMPTY → s ≡ end_of tri n
        → s < length work → lefts tri he (n + 1) (set work s (holding (get_or work s 0) n)) };
}

// Half-edge e, if it is unpaired, takes the place of the lowest one of the site where it ends and its next one, k, starts.
fn take_open<E: Entries>(triangles: &[u32], halfedges: &[u32], work: &mut [u32], e: usize, k: usize)
    requires { (length halfedges.now ≡ length triangles.now) × (length triangles.now < E.limit) × (e < length triangles.now) × (k < length triangles.now) × (k ≡ next_of e)
        × (get_or triangles.now k 0 < length work.old) × E.lefts triangles.now halfedges.now e work.old }
    ensures { E.lefts triangles.now halfedges.now (e + 1) work.new }
{
    let p = halfedges[e];
    if p == EMPTY {
        let s = wide(triangles[k]);
        work[s] = E::hold(work[s], e);
    }
}

// The same of the three half-edges of triangle t.
fn take_opens<E: Entries>(triangles: &[u32], halfedges: &[u32], work: &mut [u32], t: usize)
    requires { (length halfedges.now ≡ length triangles.now) × (length triangles.now < E.limit) × ((k : ℕ) → k < length triangles.now → get_or triangles.now k 0 < length work.old)
        × (t < length triangles.now / 3) × E.lefts triangles.now halfedges.now (3 * t) work.old }
    ensures { E.lefts triangles.now halfedges.now (3 * t + 3) work.new }
{
    take_open::<E>(triangles, halfedges, work, 3 * t, 3 * t + 1);
    take_open::<E>(triangles, halfedges, work, 3 * t + 1, 3 * t + 2);
    take_open::<E>(triangles, halfedges, work, 3 * t + 2, 3 * t);
}

// An unpaired half-edge takes the place of its site's lowest one.
pub fn take_unpaired<E: Entries>(triangles: &[u32], halfedges: &[u32], work: &mut [u32])
    requires { (length triangles.now % 3 ≡ 0) × (length halfedges.now ≡ length triangles.now) × (length triangles.now < E.limit)
        × ((k : ℕ) → k < length triangles.now → get_or triangles.now k 0 < length work.old) × E.lowests triangles.now 0 work.old }
    ensures { E.lefts triangles.now halfedges.now (length triangles.now) work.new }
{
    for t in 0..triangles.len() / 3 {
        take_opens::<E>(triangles, halfedges, work, t);
    }
}
