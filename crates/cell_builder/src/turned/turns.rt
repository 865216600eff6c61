// Which half-edges of the rest are tried. The leftmost table tells where there is nothing to do, and the cells are not looked at there: an inner site's cell is made at its table entry
// or never, and the cells of hull sites are there already, or the half-edges that end there are marked and tried one by one.
ghost use Rattle.std.specs.Prelude.{◌≡◌, ◌%◌, ◌≤◌, ◌<◌, length};
ghost use Rattle.base.specs.common.Decide.{Says};
ghost use Rattle.cell_builder.specs.turned.Marks.{mark_of};
ghost use Rattle.cell_builder.specs.turned.Turns.{due_of, HasEntry, AllHaveEntries, NextDue};

use base::numbers::{EMPTY, wide};
use mesh::end_site;

// Whether half-edge e can give the site where it ends a cell.
fn due(triangles: &[u32], halfedges: &[u32], table: &[u32], e: usize) -> bool
    requires { (length triangles.now % 3 ≡ 0) × (e < length triangles.now) × HasEntry triangles.now halfedges.now table.now e }
    ensures { result ≡ due_of triangles.now halfedges.now table.now e }
{
    let site = wide(end_site(triangles, e));
    let t = wide(table[site]);
    if e <= t {
        return true;
    }
    halfedges[t] == EMPTY
}

// Whether half-edge e is passed by for want of a mark.
fn unmarked(marks: &[u8; 16384], e: usize) -> bool
    requires { e < 393216 }
    ensures { Says result (mark_of marks.now e ≡ 0) }
{
    marks[e / 24] == 0
}

// The first half-edge from `from` on that is due and marked, or where the list ends.
pub fn next_due(
    triangles: &[u32],
    halfedges: &[u32],
    table: &[u32],
    marks: &[u8; 16384],
    from: usize,
) -> usize
    requires { AllHaveEntries triangles.now halfedges.now table.now × (from ≤ length triangles.now) }
    ensures { NextDue triangles.now halfedges.now table.now marks.now from result }
{
    let mut e = from;
    while e < triangles.len() {
        if unmarked(marks, e) {
            e = 24 * (e / 24) + 24;
        } else {
            if due(triangles, halfedges, table, e) {
                return e;
            }
            e += 1;
        }
    }
    triangles.len()
}
