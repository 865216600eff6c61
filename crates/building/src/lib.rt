// The build on a whole lent mesh, with its refusals and every lent slice at exit.

#![tactic(auto)]

pub mod counts;

ghost use Rattle.base.specs.refusal.Number.{answer_number};
ghost use Rattle.mesh.specs.Accepted.{mesh};
ghost use Rattle.admission.specs.Slices.{slices};
ghost use Rattle.plane.specs.given.Finite.{Fits};
ghost use Rattle.building.specs.answers.Promise.{Build};

use crate::counts::{finish_build, refusal};
use admission::{admit_fans, admit_outline};
use base::refusal::Refusal;
use cell_builder::build_cells;
use plane::given::Given;

// The build in the given box. Rule 10 is tried after the cells are made, and only where making them has not shown that it holds.
pub fn build(
    given: Given,
    sites: &[f64],
    triangles: &[u32],
    halfedges: &[u32],
    hull: &[u32],
    work: &mut [u32],
    vertices: &mut [f64],
    indexes: &mut [u32],
    offsets: &mut [u32],
    counts: &mut [u32],
) -> Result<(), Refusal>
    requires { Fits given }
    ensures { Build (mesh sites.now triangles.now halfedges.now hull.now) given
        (slices work.old vertices.old indexes.old offsets.old counts.old)
        (slices work.new vertices.new indexes.new offsets.new counts.new) (answer_number result) }
{
    let asked = arguments::asking::ask_box(given.sound);
    admit_outline(
        sites, triangles, halfedges, hull, asked, work, vertices, indexes, offsets, counts,
    )?;
    let count = sites.len() / 2;
    let told = build_cells(
        sites,
        triangles,
        halfedges,
        hull,
        &work[..count],
        given.bounds,
        vertices,
        indexes,
        offsets,
    );
    admit_fans(
        told.whole, triangles, halfedges, count, work, vertices, indexes, offsets, counts,
    )?;
    let a = told.answer;
    let fault = a.fault;
    finish_build(a, work, counts);
    refusal(fault)
}
