// The hull worked out afresh from triangles and pairs: the loop of the unpaired half-edges, traced from site to site. Rules 9 and 10 then decide on it.
ghost use Rattle.std.specs.Prelude.{◌≡◌, ◌≢◌, ℕ, ◌≤◌, ◌<◌, length, get_or, MatchOption, EachIndex};
ghost use Rattle.std.proofs.lemmas.List.Edits.{sets};
ghost use Rattle.base.specs.numbers.Numbers.{EMPTY};
ghost use Rattle.base.specs.refusal.Number.{answer_number};
ghost use Rattle.mesh.specs.Mesh.{AllSound, AllPaired};
ghost use Rattle.mending.specs.pairs.Chains.{NamesSites};
ghost use Rattle.mending.specs.border.Loop.{lead_at, leads_to, lowest_to, loop_begin, loop_step, loop_of, hull_of};
ghost use Rattle.mending.specs.border.Answer.{OnTable, Closed, TracedHull};

use base::numbers::{EMPTY, wide};
use base::refusal::Refusal;
use mesh::end_site;

// An unpaired half-edge leads on from the site where it starts to the one where it ends.
fn lead(triangles: &[u32], pairs: &[u32], work: &mut [u32], e: usize)
    requires { NamesSites triangles.now (length work.old) × (length pairs.now ≡ length triangles.now) × (e < length triangles.now) }
    ensures { work.new ≡ lead_at triangles.now pairs.now work.old e }
{
    if pairs[e] != EMPTY {
        return;
    }
    let s = wide(triangles[e]);
    work[s] = end_site(triangles, e);
}

// To where each site leads on; `EMPTY` where no unpaired half-edge starts.
fn lead_all(triangles: &[u32], pairs: &[u32], work: &mut [u32])
    requires { NamesSites triangles.now (length work.old) × (length pairs.now ≡ length triangles.now) }
    ensures { work.new ≡ leads_to triangles.now pairs.now (length work.old) (length triangles.now) }
{
    mesh::clear(work);
    for e in 0..triangles.len() {
        lead(triangles, pairs, work, e);
    }
}

// The lowest site that leads on.
fn first_leading(work: &[u32]) -> Option<usize>
    ensures { MatchOption result (EachIndex work.now (λ k. get_or work.now k 0 ≡ EMPTY))
        (λ s. (s < length work.now) × ((k : ℕ) → k < s → get_or work.now k 0 ≡ EMPTY) × (get_or work.now s 0 ≢ EMPTY)) }
{
    work.iter().position(|next| *next != EMPTY)
}

// The same, or `EMPTY`.
fn lowest(work: &[u32]) -> u32
    requires { length work.now < EMPTY }
    ensures { result ≡ lowest_to work.now (length work.now) }
{
    match first_leading(work) {
        Some(s) => s as u32,
        None => EMPTY,
    }
}

// Where the loop begins: at the old first hull site if that leads on, else at the lowest site that does.
fn begins(work: &[u32], first: u32) -> u32
    requires { length work.now < EMPTY }
    ensures { result ≡ loop_begin work.now first }
{
    let s = wide(first);
    if work.len() <= s {
        return lowest(work);
    }
    if work[s] == EMPTY {
        return lowest(work);
    }
    first
}

// The site after s on the loop from `begin`, or `EMPTY` where the loop is closed or ends.
fn step(work: &[u32], begin: u32, s: usize) -> u32
    requires { s < length work.now }
    ensures { result ≡ loop_step work.now begin s }
{
    let next = work[s];
    if next == begin {
        return EMPTY;
    }
    next
}

// Writes the loop from `begin`, and answers how many sites it has.
fn trace(work: &[u32], begin: u32, mended: &mut [u32]) -> usize
    requires { Closed work.now × OnTable work.now begin × (length work.now ≤ length mended.old) }
    ensures { (result ≡ length (loop_of work.now begin)) × (mended.new ≡ sets mended.old 0 (loop_of work.now begin)) }
{
    let mut s = begin;
    for k in 0..work.len() {
        if s == EMPTY {
            return k;
        }
        mended[k] = s;
        s = step(work, begin, wide(s));
    }
    work.len()
}

// The loop of the unpaired half-edges, from the old first hull site or the lowest. The work slice has an entry for each site.
fn trace_hull(
    triangles: &[u32],
    pairs: &[u32],
    first: u32,
    work: &mut [u32],
    mended: &mut [u32],
) -> usize
    requires { NamesSites triangles.now (length work.old) × (length pairs.now ≡ length triangles.now) × (length work.old < EMPTY)
        × (length work.old ≤ length mended.old) }
    ensures { (result ≡ length (hull_of triangles.now pairs.now first (length work.old)))
        × (mended.new ≡ sets mended.old 0 (hull_of triangles.now pairs.now first (length work.old))) }
{
    lead_all(triangles, pairs, work);
    let begin = begins(work, first);
    trace(work, begin, mended)
}

// How many sites the hull has, also where it is refused, and what rules 9 and 10 say of it.
#[derive(Clone, Copy)]
pub struct Traced {
    pub count: usize,
    pub verdict: Result<(), Refusal>,
}

// The hull, with rules 9 and 10. Not refused, the work slice has the leftmost table, then `EMPTY`.
pub fn mend_hull(
    triangles: &[u32],
    pairs: &[u32],
    first: u32,
    sites: usize,
    work: &mut [u32],
    mended: &mut [u32],
) -> Traced
    requires { NamesSites triangles.now sites × (length pairs.now ≡ length triangles.now) × (sites < EMPTY) × (sites ≤ length work.old)
        × (sites ≤ length mended.old) × AllSound triangles.now sites × AllPaired triangles.now pairs.now }
    ensures { TracedHull triangles.now pairs.now first sites work.old work.new mended.old mended.new
        (answer_number result.verdict) result.count }
{
    let count = trace_hull(triangles, pairs, first, &mut work[..sites], mended);
    if count < 3 {
        return Traced {
            count,
            verdict: Err(Refusal::Hull),
        };
    }
    match mesh_check::whole::check_border(triangles, pairs, &mended[..count], sites, work) {
        Ok(()) => Traced {
            count,
            verdict: Ok(()),
        },
        Err(fault) => Traced {
            count,
            verdict: Err(fault.into()),
        },
    }
}
