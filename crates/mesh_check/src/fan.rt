// Rule 10: the half-edges that end at a site are all reached from its leftmost one.
ghost use Rattle.std.specs.Prelude.{◌≡◌, ◌≢◌, ℕ, ◌%◌, ◌<◌, ◌≤◌, eqb, length, get_or};
ghost use Rattle.base.specs.common.Decide.{First};
ghost use Rattle.base.specs.numbers.Numbers.{EMPTY};
ghost use Rattle.mesh.specs.Mesh.{leftmost_of, table_to, total_to, FanAt, Paired, AllSound};
ghost use Rattle.mesh_check.specs.fan.Answer.{FanAnswer};
ghost use Rattle.mesh_check.specs.fan.Counts.{less_of, owed_to, WalkLengths, CountedDown};

use base::numbers::EMPTY;

// Whether the walks from the table's entries have as many entries together as there are half-edges.
fn walks_cover(halfedges: &[u32], table: &[u32]) -> bool
    requires { length halfedges.now % 3 ≡ 0 }
    ensures { result ≡ eqb (total_to halfedges.now table.now (length table.now)) (length halfedges.now) }
{
    let mut total: usize = 0;
    for start in table {
        total += mesh::walk_length(halfedges, *start);
        if halfedges.len() < total {
            return false;
        }
    }
    total == halfedges.len()
}

// Each entry of the table becomes the length of the walk that starts there.
fn lengths(halfedges: &[u32], work: &mut [u32])
    requires { (length halfedges.now % 3 ≡ 0) × (length halfedges.now < EMPTY) }
    ensures { WalkLengths halfedges.now work.old work.new }
{
    for entry in work.iter_mut() {
        *entry = mesh::walk_length(halfedges, *entry) as u32;
    }
}

// One less; `EMPTY` stands for less than nothing.
fn less(m: u32) -> u32
    ensures { result ≡ less_of m }
{
    if m == 0 {
        return EMPTY;
    }
    if m == EMPTY {
        return EMPTY;
    }
    m - 1
}

// Each half-edge takes one off the site where it ends.
fn count_off(triangles: &[u32], work: &mut [u32])
    requires { (length triangles.now % 3 ≡ 0) × ((k : ℕ) → k < length triangles.now → get_or triangles.now k 0 < length work.old) }
    ensures { work.new ≡ owed_to triangles.now work.old (length triangles.now) }
{
    for e in 0..triangles.len() {
        let s = base::numbers::wide(mesh::end_site(triangles, e));
        work[s] = less(work[s]);
    }
}

// The lowest of the first n sites that has less than nothing, or n.
fn first_owing(work: &[u32], n: usize) -> usize
    requires { n ≤ length work.now }
    ensures { First (λ s. get_or work.now s 0 ≢ EMPTY) n result }
{
    (0..n).find(|&s| work[s] == EMPTY).unwrap_or(n)
}

// The lowest site whose walk, of the table in the work slice, is shorter than its half-edges are many, or the number of sites.
fn first_broken(triangles: &[u32], halfedges: &[u32], sites: usize, work: &mut [u32]) -> usize
    requires { (length halfedges.now ≡ length triangles.now) × Paired triangles.now halfedges.now × (sites ≤ length work.old)
        × ((k : ℕ) → k < length triangles.now → get_or triangles.now k 0 < sites) × (work.old ≡ table_to triangles.now halfedges.now (length work.old) (length triangles.now)) }
    ensures { First (FanAt triangles.now halfedges.now (leftmost_of triangles.now halfedges.now sites)) sites result
        × CountedDown triangles.now halfedges.now work.old work.new }
{
    lengths(halfedges, work);
    count_off(triangles, work);
    first_owing(work, sites)
}

// Rule 10, with the leftmost table left in the work slice if it holds, else what counting down has left of it. Where walks of known length do not say that it
// holds, all are added up: a fan is broken, or a site has more half-edges than can be packed.
pub fn check_fan(triangles: &[u32], halfedges: &[u32], sites: usize, work: &mut [u32]) -> usize
    requires { (length halfedges.now ≡ length triangles.now) × Paired triangles.now halfedges.now × (sites ≤ length work.old)
        × ((k : ℕ) → k < length triangles.now → get_or triangles.now k 0 < sites) × AllSound triangles.now sites }
    ensures { FanAnswer triangles.now halfedges.now sites work.old work.new result }
{
    if crate::degrees::whole_fans(triangles, halfedges, work) {
        return sites;
    }
    crate::table::put_leftmost(triangles, halfedges, work);
    if walks_cover(halfedges, work) {
        return sites;
    }
    first_broken(triangles, halfedges, sites, work)
}
