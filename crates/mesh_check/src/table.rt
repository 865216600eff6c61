// The leftmost table: the lowest half-edge of each site, put from above so that no store waits for what stands there, then the unpaired ones.
ghost use Rattle.std.specs.Prelude.{◌≡◌, ℕ, ◌+◌, ◌*◌, ◌/◌, ◌%◌, ◌<◌, length, get_or};
ghost use Rattle.base.specs.numbers.Numbers.{EMPTY};
ghost use Rattle.mesh.specs.Mesh.{next_of, table_to};
ghost use Rattle.mesh_check.specs.table.Filled.{LowestsFrom, LeftsTo};
ghost use Rattle.mesh_check.specs.table.laws.Filling.{lefts_start, lefts_pass, lefts_turn};

use crate::unpaired::{Entries, take_unpaired};
use base::numbers::wide;

// Half-edge e, lower than all before, is put at the site where it ends and its next one, k, starts.
fn put_end(triangles: &[u32], work: &mut [u32], e: usize, k: usize)
    requires { (length triangles.now < EMPTY) × (e < length triangles.now) × (k < length triangles.now) × (k ≡ next_of e)
        × (get_or triangles.now k 0 < length work.old) × LowestsFrom triangles.now (e + 1) work.old }
    ensures { LowestsFrom triangles.now e work.new }
{
    let s = wide(triangles[k]);
    work[s] = e as u32;
}

// The same of the three half-edges of triangle t.
fn put_ends(triangles: &[u32], work: &mut [u32], t: usize)
    requires { (length triangles.now < EMPTY) × ((k : ℕ) → k < length triangles.now → get_or triangles.now k 0 < length work.old)
        × (t < length triangles.now / 3) × LowestsFrom triangles.now (3 * t + 3) work.old }
    ensures { LowestsFrom triangles.now (3 * t) work.new }
{
    put_end(triangles, work, 3 * t + 2, 3 * t);
    put_end(triangles, work, 3 * t + 1, 3 * t + 2);
    put_end(triangles, work, 3 * t, 3 * t + 1);
}

// Each site's lowest half-edge.
fn put_lowest(triangles: &[u32], work: &mut [u32])
    requires { (length triangles.now % 3 ≡ 0) × (length triangles.now < EMPTY) × ((k : ℕ) → k < length triangles.now → get_or triangles.now k 0 < length work.old) }
    ensures { LowestsFrom triangles.now 0 work.new }
{
    mesh::clear(work);
    for t in (0..triangles.len() / 3).rev() {
        put_ends(triangles, work, t);
    }
}

// An entry is a half-edge and nothing besides.
struct Plain;

impl Entries for Plain {
    ghost limit = { EMPTY };

    ghost lowests = { LowestsFrom };

    ghost lefts = { LeftsTo };

    ghost holding = { λ _ e. e };

    ghost start = { lefts_start };

    ghost pass = { lefts_pass };

    ghost turn = { lefts_turn };

    fn hold(_entry: u32, e: usize) -> u32 {
        e as u32
    }
}

// Fills the table of leftmost half-edges.
pub fn put_leftmost(triangles: &[u32], halfedges: &[u32], work: &mut [u32])
    requires { (length triangles.now % 3 ≡ 0) × (length halfedges.now ≡ length triangles.now) × (length triangles.now < EMPTY)
        × ((k : ℕ) → k < length triangles.now → get_or triangles.now k 0 < length work.old) }
    ensures { work.new ≡ table_to triangles.now halfedges.now (length work.old) (length triangles.now) }
{
    put_lowest(triangles, work);
    take_unpaired::<Plain>(triangles, halfedges, work);
}
