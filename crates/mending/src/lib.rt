// Mending a hand-edited mesh: sites and triangles are kept, pairs and hull worked out afresh, and what has changed is listed.

#![tactic(auto)]

pub mod border;
pub mod changes;
pub mod pairs;
pub mod slices;

ghost use Rattle.std.specs.Prelude.{◌/◌, length};
ghost use Rattle.base.specs.common.Decide.{Says};
ghost use Rattle.base.specs.common.Refusals.{Finds};
ghost use Rattle.base.specs.refusal.Number.{answer_number};
ghost use Rattle.mesh.specs.Accepted.{mesh};
ghost use Rattle.mending.specs.Mending.{MendRoom, mend_start, work_rules, hull_told, pairs_told, places_told, MendOutcome, Mends};
ghost use Rattle.mending.specs.border.Answer.{hull_count};
ghost use Rattle.mending.specs.slices.Lent.{lent};
ghost use Rattle.mending.specs.Steps.{Ready, WorkedOut, Lists};

use crate::pairs::pair_up;
use crate::slices::{clear_all, list_both};
use base::refusal::Refusal;
use mesh_check::pairing::check_triangles;

// The hull's length, and how many entries of the pairs and of the hull have changed.
#[derive(Clone, Copy)]
pub struct Mended {
    pub hull: u32,
    pub pairs: u32,
    pub places: u32,
}

// Rule 2, by the lengths of the slices.
fn room_ok(
    sites: usize,
    entries: usize,
    work: usize,
    pairs: usize,
    mended: usize,
    changes: usize,
) -> bool
    ensures { Says result (MendRoom sites entries work pairs mended changes) }
{
    if work < sites {
        return false;
    }
    if pairs < entries {
        return false;
    }
    if mended < sites {
        return false;
    }
    if changes / 3 < entries {
        return false;
    }
    if changes / 3 - entries < sites {
        return false;
    }
    true
}

// Rules 1, 2 and 6.
fn admit_mend(
    sites: &[f64],
    entries: usize,
    halfedges: usize,
    hull: usize,
    work: usize,
    pairs: usize,
    mended: usize,
    changes: usize,
) -> Result<(), Refusal>
    ensures { Finds (mend_start sites.now entries halfedges hull
        (MendRoom (length sites.now / 2) entries work pairs mended changes)) 0 (answer_number result) }
{
    if !mesh_check::counts::counts_ok(sites.len(), entries, halfedges, hull) {
        return Err(Refusal::Count);
    }
    if !room_ok(sites.len() / 2, entries, work, pairs, mended, changes) {
        return Err(Refusal::Room);
    }
    if plane::points::first_bad_site(sites) < sites.len() / 2 {
        return Err(Refusal::Coordinate);
    }
    Ok(())
}

// Rules 19, 9 and 10, and how many sites the hull has. Not refused, the pairs and the hull are written, then `EMPTY`, and the work slice has the leftmost table.
fn work_out(
    triangles: &[u32],
    first: u32,
    sites: usize,
    work: &mut [u32],
    pairs: &mut [u32],
    mended: &mut [u32],
    changes: &mut [u32],
) -> Result<usize, Refusal>
    requires { Ready triangles.now sites (lent work.old pairs.old mended.old changes.old) }
    ensures { WorkedOut triangles.now first sites (lent work.old pairs.old mended.old changes.old)
        (lent work.new pairs.new mended.new changes.new) (answer_number result) (hull_count result) }
{
    mesh::clear(pairs);
    if !pair_up(triangles, work, changes, mended, pairs, sites) {
        return Err(Refusal::Twice);
    }
    mesh::clear(mended);
    let n = triangles.len();
    let traced = crate::border::mend_hull(triangles, &pairs[..n], first, sites, work, mended);
    match traced.verdict {
        Ok(()) => Ok(traced.count),
        Err(refusal) => Err(refusal),
    }
}

// Rules 19, 9 and 10, where 1, 2, 6 and 7 hold; and what was worked out, with the list of changes.
fn mend_sound(
    triangles: &[u32],
    halfedges: &[u32],
    hull: &[u32],
    sites: usize,
    work: &mut [u32],
    pairs: &mut [u32],
    mended: &mut [u32],
    changes: &mut [u32],
) -> Result<Mended, Refusal>
    requires { Ready triangles.now sites (lent work.old pairs.old mended.old changes.old)
        × Lists triangles.now halfedges.now hull.now sites (length changes.old) }
    ensures { Finds (work_rules triangles.now sites) 0 (answer_number result) × MendOutcome triangles.now halfedges.now hull.now sites
        (lent work.old pairs.old mended.old changes.old)
        (lent work.new pairs.new mended.new changes.new) (answer_number result) (hull_told result) (pairs_told result) (places_told result) }
{
    let first = hull[0];
    let k = match work_out(triangles, first, sites, work, pairs, mended, changes) {
        Ok(count) => count,
        Err(refusal) => {
            clear_all(work, pairs, mended, changes);
            return Err(refusal);
        }
    };
    let n = triangles.len();
    let new_pairs = &pairs[..n];
    let new_hull = &mended[..k];
    let (repaired, replaced) = list_both(halfedges, new_pairs, hull, new_hull, changes);
    Ok(Mended {
        hull: k as u32,
        pairs: repaired as u32,
        places: replaced as u32,
    })
}

// The whole call.
pub fn mend(
    sites: &[f64],
    triangles: &[u32],
    halfedges: &[u32],
    hull: &[u32],
    work: &mut [u32],
    pairs: &mut [u32],
    mended: &mut [u32],
    changes: &mut [u32],
) -> Result<Mended, Refusal>
    ensures { Mends (mesh sites.now triangles.now halfedges.now hull.now)
        (lent work.old pairs.old mended.old changes.old)
        (lent work.new pairs.new mended.new changes.new) (answer_number result) (hull_told result) (pairs_told result) (places_told result) }
{
    admit_mend(
        sites,
        triangles.len(),
        halfedges.len(),
        hull.len(),
        work.len(),
        pairs.len(),
        mended.len(),
        changes.len(),
    )?;
    let count = sites.len() / 2;
    if check_triangles(triangles, count) < triangles.len() / 3 {
        clear_all(work, pairs, mended, changes);
        return Err(Refusal::Triangle);
    }
    mend_sound(
        triangles, halfedges, hull, count, work, pairs, mended, changes,
    )
}

// The same with the three numbers lent.
pub fn mend_lent(
    sites: &[f64],
    triangles: &[u32],
    halfedges: &[u32],
    hull: &[u32],
    work: &mut [u32],
    pairs: &mut [u32],
    mended: &mut [u32],
    changes: &mut [u32],
    hull_length: &mut u32,
    pair_changes: &mut u32,
    hull_changes: &mut u32,
) -> u32
    ensures { Mends (mesh sites.now triangles.now halfedges.now hull.now)
        (lent work.old pairs.old mended.old changes.old)
        (lent work.new pairs.new mended.new changes.new) result
        hull_length.new pair_changes.new hull_changes.new }
{
    match mend(
        sites, triangles, halfedges, hull, work, pairs, mended, changes,
    ) {
        Ok(done) => {
            *hull_length = done.hull;
            *pair_changes = done.pairs;
            *hull_changes = done.places;
            0
        }
        Err(refusal) => {
            *hull_length = 0;
            *pair_changes = 0;
            *hull_changes = 0;
            refusal.into()
        }
    }
}
