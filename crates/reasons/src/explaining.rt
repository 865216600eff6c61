// The reason asked for on a whole lent mesh: the five slices are left as by a build, and the one reason is told.
ghost use Rattle.std.specs.Prelude.{◌≡◌, true, ◌++◌, ◌<◌};
ghost use Rattle.base.specs.numbers.Numbers.{refused_triangle};
ghost use Rattle.base.specs.refusal.Number.{number_of, answer_number};
ghost use Rattle.plane.specs.given.Finite.{Fits};
ghost use Rattle.mesh.specs.Accepted.{mesh};
ghost use Rattle.definition.specs.Build.{build};
ghost use Rattle.arguments.specs.asking.Asks.{box_rules, Asked};
ghost use Rattle.admission.specs.Slices.{slices};
ghost use Rattle.reasons.specs.Rules.{question_rules};
ghost use Rattle.reasons.specs.explaining.Promise.{Explained};
ghost use Rattle.reasons.specs.explaining.Steps.{Located, Explains};

use crate::asked::answer;
use crate::{Question, Reason, of_fault, of_mesh, tell};
use admission::admit_build;
use arguments::asking::{ask_box, ask_site};
use base::refusal::Refusal;
use building::counts::finish_build;
use cell_builder::build_cells;
use plane::given::Given;

// Rule 4 on each site asked about.
fn ask_question(sites: usize, q: Question) -> Result<(), Refusal>
    ensures { Asked (question_rules sites q) (answer_number result) }
{
    match q {
        Question::Nothing => Ok(()),
        Question::About(s) => ask_site(sites, s),
        Question::Between(s, t) => {
            ask_site(sites, s)?;
            ask_site(sites, t)
        }
    }
}

// Rule 3, then rule 4.
fn ask_arguments(sound: bool, sites: usize, q: Question) -> Result<(), Refusal>
    ensures { Asked (box_rules sound ++ question_rules sites q) (answer_number result) }
{
    ask_box(sound)?;
    ask_question(sites, q)
}

// A refusal by the rules up to 10 with its place: from 6 on the check is made again, and tells it.
fn locate(
    refusal: Refusal,
    sites: &[f64],
    triangles: &[u32],
    halfedges: &[u32],
    hull: &[u32],
    work: &mut [u32],
) -> Reason
    ensures { Located (mesh sites.now triangles.now halfedges.now hull.now) (number_of refusal) work.old work.new result }
{
    let number = u32::from(refusal);
    if number < base::numbers::REFUSED_COORDINATE {
        return Reason::Number(number);
    }
    of_mesh(mesh_check::whole::check_mesh(sites, triangles, halfedges, hull, work))
}

// The build, with what it met as a reason; `asked` is what the call's own arguments gave.
fn explain_build(
    given: Given,
    sites: &[f64],
    triangles: &[u32],
    halfedges: &[u32],
    hull: &[u32],
    asked: Result<(), Refusal>,
    work: &mut [u32],
    vertices: &mut [f64],
    indexes: &mut [u32],
    offsets: &mut [u32],
    counts: &mut [u32],
) -> Reason
    requires { (answer_number asked < refused_triangle) × (answer_number asked ≡ 0 → given.sound ≡ true) × Fits given }
    ensures { Explains (mesh sites.now triangles.now halfedges.now hull.now) (answer_number asked)
        (build (mesh sites.now triangles.now halfedges.now hull.now) given.bounds)
        (slices work.old vertices.old indexes.old offsets.old counts.old)
        (slices work.new vertices.new indexes.new offsets.new counts.new) result }
{
    if let Err(refusal) = admit_build(
        sites, triangles, halfedges, hull, asked, work, vertices, indexes, offsets, counts,
    ) {
        return locate(refusal, sites, triangles, halfedges, hull, work);
    }
    let count = sites.len() / 2;
    let told = build_cells(
        sites,
        triangles,
        halfedges,
        hull,
        &work[..count],
        given.bounds,
        vertices,
        indexes,
        offsets,
    );
    let a = told.answer;
    let fault = a.fault;
    finish_build(a, work, counts);
    of_fault(fault)
}

// In the given box.
pub fn why(
    given: Given,
    sites: &[f64],
    triangles: &[u32],
    halfedges: &[u32],
    hull: &[u32],
    q: Question,
    work: &mut [u32],
    vertices: &mut [f64],
    indexes: &mut [u32],
    offsets: &mut [u32],
    counts: &mut [u32],
) -> Reason
    requires { Fits given }
    ensures { Explained (mesh sites.now triangles.now halfedges.now hull.now) given q
        (slices work.old vertices.old indexes.old offsets.old counts.old)
        (slices work.new vertices.new indexes.new offsets.new counts.new) result }
{
    let count = sites.len() / 2;
    let asked = ask_arguments(given.sound, count, q);
    let r = explain_build(
        given, sites, triangles, halfedges, hull, asked, work, vertices, indexes, offsets, counts,
    );
    let t = tell(r);
    if t.number != 0 {
        return r;
    }
    let end = count + 1;
    answer(
        triangles,
        halfedges,
        &work[..count],
        &offsets[..end],
        indexes,
        q,
    )
}
