// Flipping an edge as a call on lent lists: the rules in their order, then the change.
ghost use Rattle.base.specs.common.Refusals.{Finds};
ghost use Rattle.base.specs.refusal.Number.{answer_number};
ghost use Rattle.flipping.specs.call.Flips.{flip_lists, flip_start, Flips};
ghost use Rattle.flipping.specs.call.Steps.{Checkable, Judges};

use crate::rule::may_flip;
use crate::stores::change;
use base::numbers::wide;
use base::refusal::Refusal;

// Rules 1 and 2, by the lengths of the lists.
fn admit(
    sites: u32,
    entries: usize,
    halfedges: usize,
    hull: usize,
    table: usize,
    work: usize,
) -> Result<(), Refusal>
    ensures { Finds (flip_start sites entries halfedges hull table work) 0 (answer_number result) }
{
    let n = wide(sites);
    if !mesh_check::counts::counts_ok(2 * n, entries, halfedges, hull) {
        return Err(Refusal::Count);
    }
    if table < n {
        return Err(Refusal::Room);
    }
    if work < n {
        return Err(Refusal::Room);
    }
    Ok(())
}

// Rules 7 to 10 and 23. The work slice then holds the leftmost table and then `EMPTY`, and `EMPTY` throughout after a refusal.
fn judge(
    triangles: &[u32],
    halfedges: &[u32],
    hull: &[u32],
    table: &[u32],
    work: &mut [u32],
    sites: usize,
    a: usize,
) -> Result<(), Refusal>
    requires { Checkable triangles.now halfedges.now hull.now table.now work.old sites }
    ensures { Judges triangles.now halfedges.now hull.now table.now sites a
        work.old work.new (answer_number result) }
{
    mesh_check::whole::check_topology(triangles, halfedges, hull, sites, work)?;
    if !may_flip(triangles, halfedges, table, work, sites, a) {
        mesh::clear(work);
        return Err(Refusal::Flip);
    }
    Ok(())
}

// The whole call.
pub fn flip(
    site_count: u32,
    triangles: &mut [u32],
    halfedges: &mut [u32],
    hull: &[u32],
    table: &mut [u32],
    work: &mut [u32],
    halfedge: u32,
) -> Result<(), Refusal>
    ensures { Flips site_count hull.now halfedge
        (flip_lists triangles.old halfedges.old table.old work.old)
        (flip_lists triangles.new halfedges.new table.new work.new) (answer_number result) }
{
    admit(
        site_count,
        triangles.len(),
        halfedges.len(),
        hull.len(),
        table.len(),
        work.len(),
    )?;
    let a = wide(halfedge);
    judge(triangles, halfedges, hull, table, work, wide(site_count), a)?;
    change(triangles, halfedges, table, work, a);
    Ok(())
}
