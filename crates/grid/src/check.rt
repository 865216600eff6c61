// The check of a mesh on the grid: rules 1, 2, 22 and 7 to 10, then its turns and circles.
ghost use Rattle.grid.specs.check.Promise.{grid_mesh, GridChecks};
ghost use Rattle.grid.specs.check.laws.Outcome.{GridSettled};

use crate::scan::GridFault;
use base::refusal::Refusal;
use mesh_check::counts::counts_ok;
use mesh_check::whole::check_topology;

// The whole check.
pub fn check_grid(
    grid: &[i32],
    triangles: &[u32],
    halfedges: &[u32],
    hull: &[u32],
    work: &mut [u32],
) -> Result<(), GridFault>
    ensures { GridSettled (grid_mesh grid.now triangles.now halfedges.now hull.now) work.old work.new result }
{
    if !counts_ok(grid.len(), triangles.len(), halfedges.len(), hull.len()) {
        return Err(GridFault::Refused(Refusal::Count));
    }
    let count = grid.len() / 2;
    if work.len() < count {
        return Err(GridFault::Refused(Refusal::Room));
    }
    if crate::first_beyond(grid) < count {
        return Err(GridFault::Refused(Refusal::Grid));
    }
    check_topology(triangles, halfedges, hull, count, work)?;
    crate::scan::judge(grid, triangles, halfedges)
}

// The same with the answer's kind and place lent, as the C interface has it.
pub fn check_grid_lent(
    grid: &[i32],
    triangles: &[u32],
    halfedges: &[u32],
    hull: &[u32],
    work: &mut [u32],
    kind: &mut u32,
    place: &mut u32,
) -> u32
    ensures { GridChecks (grid_mesh grid.now triangles.now halfedges.now hull.now)
        work.old work.new result kind.new place.new }
{
    let answer = check_grid(grid, triangles, halfedges, hull, work);
    *kind = crate::scan::kind_of(answer);
    *place = crate::scan::place_of(answer);
    crate::scan::number_of(answer)
}
