// The neighbours of all sites at once: the mesh is checked once, then the lists are made.
ghost use Rattle.base.specs.common.Decide.{Says};
ghost use Rattle.base.specs.refusal.Number.{answer_number};
ghost use Rattle.mesh.specs.Accepted.{mesh};
ghost use Rattle.queries.specs.bulk_neighbours.Promise.{ListsRoom, CellsLent, AllNeighboursAnswer};
ghost use Rattle.queries.specs.bulk_neighbours.Steps.{ListsAdmission};

use crate::all_neighbours::{make_lists, nothing_lent};
use admission::admit;
use arguments::asking::cells_ok;
use base::refusal::Refusal;
use mesh::clear;

// Rule 2, by the lengths of the lists.
fn room(sites: usize, entries: usize, hull: usize, work: usize, starts: usize, out: usize) -> bool
    ensures { Says result (ListsRoom sites entries hull work starts out) }
{
    if work < sites {
        return false;
    }
    if starts <= sites {
        return false;
    }
    if out < hull {
        return false;
    }
    entries <= out - hull
}

// The rules up to 10. After 7 to 10 every lent slice is cleared.
fn admit_lists(
    sites: &[f64],
    triangles: &[u32],
    halfedges: &[u32],
    hull: &[u32],
    work: &mut [u32],
    starts: &mut [u32],
    out: &mut [u32],
) -> Result<(), Refusal>
    ensures { ListsAdmission (mesh sites.now triangles.now halfedges.now hull.now)
        work.old work.new starts.old starts.new out.old out.new (answer_number result) }
{
    let roomy = room(
        sites.len() / 2,
        triangles.len(),
        hull.len(),
        work.len(),
        starts.len(),
        out.len(),
    );
    let answer = admit(sites, triangles, halfedges, hull, roomy, Ok(()), work);
    if answer.is_err_and(Refusal::of_mesh) {
        clear(starts);
        clear(out);
    }
    answer
}

// Rule 16 on cells that are lent.
fn cells_lent(offsets: &[u32], indexes: &[u32], sites: usize) -> bool
    ensures { Says result (CellsLent offsets.now indexes.now sites) }
{
    if nothing_lent(offsets.len(), indexes.len()) {
        return true;
    }
    cells_ok(offsets, indexes, sites)
}

// The neighbours of every site, after clipping where cells are lent, and where each site's begin; after 16 `starts` and `out` are as they were.
pub fn all_neighbours(
    sites: &[f64],
    triangles: &[u32],
    halfedges: &[u32],
    hull: &[u32],
    offsets: &[u32],
    indexes: &[u32],
    work: &mut [u32],
    starts: &mut [u32],
    out: &mut [u32],
) -> Result<(), Refusal>
    ensures { AllNeighboursAnswer (mesh sites.now triangles.now halfedges.now hull.now)
        offsets.now indexes.now work.old work.new starts.old starts.new out.old out.new (answer_number result) }
{
    admit_lists(sites, triangles, halfedges, hull, work, starts, out)?;
    let count = sites.len() / 2;
    if !cells_lent(offsets, indexes, count) {
        clear(work);
        return Err(Refusal::Offsets);
    }
    make_lists(
        triangles,
        halfedges,
        &work[..count],
        offsets,
        indexes,
        starts,
        out,
    );
    Ok(())
}
