// The reason as a call with lent single numbers: the kind and the places, which are always written.
ghost use Rattle.std.specs.Prelude.{◌≡◌};
ghost use Rattle.plane.specs.given.Finite.{Fits};
ghost use Rattle.mesh.specs.Accepted.{mesh};
ghost use Rattle.admission.specs.Slices.{slices};
ghost use Rattle.reasons.specs.Reason.{tells};
ghost use Rattle.reasons.specs.call.Call.{question_of, WhyCall};

use crate::{Question, ReasonNumbers, tell};
use plane::given::Given;

// 0 asks for nothing, 1 about the first site, more about both.
fn question(asked: u32, first: u32, second: u32) -> Question
    ensures { result ≡ question_of asked first second }
{
    if asked == 0 {
        return Question::Nothing;
    }
    if asked == 1 {
        return Question::About(first);
    }
    Question::Between(first, second)
}

// The kind and the places; answers the number.
fn put_numbers(
    t: ReasonNumbers,
    kind: &mut u32,
    place: &mut u32,
    from: &mut u32,
    to: &mut u32,
) -> u32
    ensures { tells result kind.new place.new from.new to.new ≡ t }
{
    *kind = t.kind;
    *place = t.place;
    *from = t.from;
    *to = t.to;
    t.number
}

// In the given box.
pub fn why_call(
    given: Given,
    sites: &[f64],
    triangles: &[u32],
    halfedges: &[u32],
    hull: &[u32],
    asked: u32,
    first: u32,
    second: u32,
    work: &mut [u32],
    vertices: &mut [f64],
    indexes: &mut [u32],
    offsets: &mut [u32],
    counts: &mut [u32],
    kind: &mut u32,
    place: &mut u32,
    from: &mut u32,
    to: &mut u32,
) -> u32
    requires { Fits given }
    ensures { WhyCall (mesh sites.now triangles.now halfedges.now hull.now) given (question_of asked first second)
        (slices work.old vertices.old indexes.old offsets.old counts.old)
        (slices work.new vertices.new indexes.new offsets.new counts.new)
        (tells result kind.new place.new from.new to.new) }
{
    let q = question(asked, first, second);
    let reason = crate::explaining::why(
        given, sites, triangles, halfedges, hull, q, work, vertices, indexes, offsets, counts,
    );
    put_numbers(tell(reason), kind, place, from, to)
}
