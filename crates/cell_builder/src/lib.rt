// The clipped build (CellBuilder with ClipBehavior::Clip) over lent slices: circumcenters, owners, extensions, the hull's cells, the rest, then all put in their places.

#![tactic(auto)]

pub mod finish;
pub mod placed;
pub mod rings;
pub mod tried;
pub mod turned;
pub mod start; // start.rt: what the cells begin with

ghost use Rattle.std.specs.Prelude.{◌≡◌, length};
ghost use Rattle.mesh.specs.Accepted.{mesh};
ghost use Rattle.cell_builder.specs.AdmittedBuild.{AdmittedBuild};
ghost use Rattle.cell_builder.specs.Start.{Makeable, MadeCells, BuildTold, BuiltCells};

use crate::finish::{Finished, Progress, refuse, settle};
use crate::rings::circumcenters::calculate_circumcenters;
use crate::rings::ownership::calculate_corner_ownership;
use crate::turned::loops::clip_cells;
use cell_memory::outputs::lay_out;
use definition::Fault;
use plane::boxes::BoundingBox;
use start::{extend, frame};

// The regions, the corners and extensions, and all cells but the early ones in their regions.
fn make_cells(
    sites: &[f64],
    triangles: &[u32],
    halfedges: &[u32],
    hull: &[u32],
    table: &[u32],
    marks: &mut [u8; 16384],
    bounds: BoundingBox,
    owners: [u32; 4],
    vertices: &mut [f64],
    indexes: &mut [u32],
    offsets: &mut [u32],
) -> Progress
    requires { Makeable (mesh sites.now triangles.now halfedges.now hull.now) table.now bounds owners (length vertices.old) (length indexes.old) (length offsets.old)
        × (length marks.old ≡ 16384) }
    ensures { MadeCells (mesh sites.now triangles.now halfedges.now hull.now) table.now bounds
        owners vertices.old marks.new result vertices.new indexes.new offsets.new }
{
    let f = frame(bounds, triangles.len(), hull.len());
    lay_out(triangles, hull, owners, indexes, offsets, sites.len() / 2);
    let p = extend(sites, triangles, hull, table, vertices, indexes, f, owners);
    let fault = p.fault;
    if fault.number != 0 {
        return p;
    }
    clip_cells(
        triangles, halfedges, hull, table, marks, vertices, indexes, offsets, f, p,
    )
}

// All cells on the owners found, and the answer.
fn clip_build(
    sites: &[f64],
    triangles: &[u32],
    halfedges: &[u32],
    hull: &[u32],
    table: &[u32],
    bounds: BoundingBox,
    owners: [u32; 4],
    vertices: &mut [f64],
    indexes: &mut [u32],
    offsets: &mut [u32],
) -> Finished
    requires { Makeable (mesh sites.now triangles.now halfedges.now hull.now) table.now bounds owners
        (length vertices.old) (length indexes.old) (length offsets.old) }
    ensures { BuiltCells (mesh sites.now triangles.now halfedges.now hull.now) table.now bounds
        owners vertices.old indexes.old offsets.old result vertices.new indexes.new offsets.new }
{
    let mut marks = [0u8; 16384];
    let p = make_cells(
        sites, triangles, halfedges, hull, table, &mut marks, bounds, owners, vertices, indexes,
        offsets,
    );
    settle(
        halfedges,
        table,
        &marks,
        vertices,
        indexes,
        offsets,
        sites.len() / 2,
        triangles.len() / 3,
        p,
        owners,
    )
}

// On a mesh that the rules up to 9 accept and slices with room. Where every fan is whole it is the definition's build, and refused all three slices are cleared; whether they are
// is told, but for a build that is refused.
pub fn build_cells(
    sites: &[f64],
    triangles: &[u32],
    halfedges: &[u32],
    hull: &[u32],
    table: &[u32],
    bounds: BoundingBox,
    vertices: &mut [f64],
    indexes: &mut [u32],
    offsets: &mut [u32],
) -> Finished
    requires { AdmittedBuild (mesh sites.now triangles.now halfedges.now hull.now) table.now bounds (length vertices.old) (length indexes.old) (length offsets.old) }
    ensures { BuildTold (mesh sites.now triangles.now halfedges.now hull.now) table.now bounds
        vertices.old indexes.old offsets.old result vertices.new indexes.new offsets.new }
{
    let t = calculate_circumcenters(sites, triangles, vertices);
    if t < triangles.len() / 3 {
        let fault = Fault {
            number: base::numbers::REFUSED_CIRCUMCENTER,
            place: t as u32,
            from: 0,
            to: 0,
        };
        return Finished {
            answer: refuse(vertices, indexes, offsets, fault),
            whole: false,
        };
    }
    let owners = calculate_corner_ownership(sites, triangles, halfedges, table, bounds, hull[0]);
    clip_build(
        sites, triangles, halfedges, hull, table, bounds, owners, vertices, indexes, offsets,
    )
}
