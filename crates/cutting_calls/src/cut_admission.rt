// The rules up to 10 that cutting tries on what it is lent, with its own rule 2. After 7 to 10 every lent slice is cleared.
ghost use Rattle.std.specs.Prelude.{◌<◌};
ghost use Rattle.base.specs.numbers.Numbers.{refused_triangle};
ghost use Rattle.base.specs.refusal.Number.{answer_number};
ghost use Rattle.mesh.specs.Accepted.{mesh};
ghost use Rattle.cutting_calls.specs.cut_admission.CutSlices.{cut_slices};
ghost use Rattle.cutting_calls.specs.cut_admission.CutAdmission.{CutRoomAnswer, CutAdmission};

use admission::admit;
use base::refusal::Refusal;
use cell_memory::outputs::clear_all;

// Rule 2 on all that cutting is lent, by the lengths of its slices; no where rule 1 is broken.
fn room_for(
    coordinates: usize,
    entries: usize,
    halfedges: usize,
    hull: usize,
    work: usize,
    numbers: usize,
    indexes: usize,
    offsets: usize,
) -> bool
    ensures { CutRoomAnswer coordinates entries halfedges hull work numbers indexes offsets result }
{
    if !mesh_check::counts::counts_ok(coordinates, entries, halfedges, hull) {
        return false;
    }
    let sites = coordinates / 2;
    if work < sites {
        return false;
    }
    let triangles = entries / 3;
    if numbers / 2 < 7 * triangles + 2 * hull + 4 {
        return false;
    }
    if indexes < 16 * triangles + 11 * hull {
        return false;
    }
    if offsets <= sites {
        return false;
    }
    true
}

pub fn admit_cut(
    sites: &[f64],
    triangles: &[u32],
    halfedges: &[u32],
    hull: &[u32],
    asked: Result<(), Refusal>,
    work: &mut [u32],
    vertices: &mut [f64],
    indexes: &mut [u32],
    offsets: &mut [u32],
) -> Result<(), Refusal>
    requires { answer_number asked < refused_triangle }
    ensures { CutAdmission (mesh sites.now triangles.now halfedges.now hull.now) (answer_number asked)
        (cut_slices work.old vertices.old indexes.old offsets.old)
        (cut_slices work.new vertices.new indexes.new offsets.new) (answer_number result) }
{
    let roomy = room_for(
        sites.len(),
        triangles.len(),
        halfedges.len(),
        hull.len(),
        work.len(),
        vertices.len(),
        indexes.len(),
        offsets.len(),
    );
    let answer = admit(sites, triangles, halfedges, hull, roomy, asked, work);
    if answer.is_err_and(Refusal::of_mesh) {
        clear_all(vertices, indexes, offsets);
    }
    answer
}
