// The rules up to 10 that a call tries on what it is lent: 1 and 2 on counts and room, 3 to 5 by the answer that its own arguments gave, 6 on coordinates, 7 to 10 on the mesh.
// A build tries them up to 9, and rule 10 apart.

#![tactic(auto)]

ghost use Rattle.std.specs.Prelude.{◌≡◌, true, ◌/◌, ◌<◌, ◌≤◌, length};
ghost use Rattle.base.specs.numbers.Numbers.{refused_triangle};
ghost use Rattle.base.specs.refusal.Number.{answer_number};
ghost use Rattle.mesh.specs.Mesh.{leftmost_of, Fan};
ghost use Rattle.mesh.specs.Accepted.{mesh};
ghost use Rattle.mesh_check.specs.whole.Answers.{work_after};
ghost use Rattle.admission.specs.Admits.{Early, Outlines};
ghost use Rattle.admission.specs.Slices.{slices};
ghost use Rattle.admission.specs.Admission.{Admission, ListAdmission, RoomAnswer, TryableFans, OutlineAdmission, FanAdmission, BuildAdmission};

use base::refusal::Refusal;
use cell_memory::outputs::{clear_all, rooms_ok};

// Rules 1, 2, what the call asks of its own arguments, and 6.
fn early(
    sites: &[f64],
    entries: usize,
    halfedges: usize,
    hull: usize,
    roomy: bool,
    asked: Result<(), Refusal>,
) -> Result<(), Refusal>
    ensures { Early sites.now entries halfedges hull roomy (answer_number asked) (answer_number result) }
{
    if !mesh_check::counts::counts_ok(sites.len(), entries, halfedges, hull) {
        return Err(Refusal::Count);
    }
    if !roomy {
        return Err(Refusal::Room);
    }
    asked?;
    if plane::points::first_bad_site(sites) < sites.len() / 2 {
        return Err(Refusal::Coordinate);
    }
    Ok(())
}

// The rules that a call on a mesh tries, up to 10. After 7 to 10 the work slice is `EMPTY`, accepted, it holds the leftmost table and then `EMPTY`.
pub fn admit(
    sites: &[f64],
    triangles: &[u32],
    halfedges: &[u32],
    hull: &[u32],
    roomy: bool,
    asked: Result<(), Refusal>,
    work: &mut [u32],
) -> Result<(), Refusal>
    requires { (roomy ≡ true → length sites.now / 2 ≤ length work.old) × (answer_number asked < refused_triangle) }
    ensures { Admission (mesh sites.now triangles.now halfedges.now hull.now) roomy (answer_number asked) work.old work.new (answer_number result) }
{
    early(
        sites,
        triangles.len(),
        halfedges.len(),
        hull.len(),
        roomy,
        asked,
    )?;
    mesh_check::whole::check_topology(triangles, halfedges, hull, sites.len() / 2, work)?;
    Ok(())
}

// The same with an output slice, which is `EMPTY` after 7 to 10.
pub fn admit_list(
    sites: &[f64],
    triangles: &[u32],
    halfedges: &[u32],
    hull: &[u32],
    asked: Result<(), Refusal>,
    work: &mut [u32],
    out: &mut [u32],
) -> Result<(), Refusal>
    requires { answer_number asked < refused_triangle }
    ensures { ListAdmission (mesh sites.now triangles.now halfedges.now hull.now) (answer_number asked)
        work.old work.new out.old out.new (answer_number result) }
{
    let roomy = sites.len() / 2 <= work.len();
    let answer = admit(sites, triangles, halfedges, hull, roomy, asked, work);
    if answer.is_err_and(Refusal::of_mesh) {
        mesh::clear(out);
    }
    answer
}

// Rule 2 on all that a build is lent, by the lengths of its slices; no where rule 1 is broken.
fn room_for(
    coordinates: usize,
    entries: usize,
    halfedges: usize,
    hull: usize,
    work: usize,
    numbers: usize,
    indexes: usize,
    offsets: usize,
    counts: usize,
) -> bool
    ensures { RoomAnswer coordinates entries halfedges hull work numbers indexes offsets counts result }
{
    if !mesh_check::counts::counts_ok(coordinates, entries, halfedges, hull) {
        return false;
    }
    let sites = coordinates / 2;
    if work < sites {
        return false;
    }
    if counts < 9 {
        return false;
    }
    rooms_ok(entries / 3, hull, sites, numbers, indexes, offsets)
}

// The rules up to 9. After 7 to 9 the work slice is `EMPTY`, accepted, it holds the leftmost table and then `EMPTY`.
// It and `admit` are `early` and one check each: with the check passed in, its clauses would be longer than both bodies.
fn outline(
    sites: &[f64],
    triangles: &[u32],
    halfedges: &[u32],
    hull: &[u32],
    roomy: bool,
    asked: Result<(), Refusal>,
    work: &mut [u32],
) -> Result<(), Refusal>
    requires { (roomy ≡ true → length sites.now / 2 ≤ length work.old) × (answer_number asked < refused_triangle) }
    ensures { Outlines (mesh sites.now triangles.now halfedges.now hull.now) roomy (answer_number asked) (answer_number result)
        × (work.new ≡ work_after (mesh sites.now triangles.now halfedges.now hull.now) work.old (answer_number result)) }
{
    early(
        sites,
        triangles.len(),
        halfedges.len(),
        hull.len(),
        roomy,
        asked,
    )?;
    mesh_check::whole::check_outline(triangles, halfedges, hull, sites.len() / 2, work)?;
    Ok(())
}

// The rules of a build up to 9. After 7 to 9 every lent slice is cleared.
pub fn admit_outline(
    sites: &[f64],
    triangles: &[u32],
    halfedges: &[u32],
    hull: &[u32],
    asked: Result<(), Refusal>,
    work: &mut [u32],
    vertices: &mut [f64],
    indexes: &mut [u32],
    offsets: &mut [u32],
    counts: &mut [u32],
) -> Result<(), Refusal>
    requires { answer_number asked < refused_triangle }
    ensures { OutlineAdmission (mesh sites.now triangles.now halfedges.now hull.now) (answer_number asked)
        (slices work.old vertices.old indexes.old offsets.old counts.old)
        (slices work.new vertices.new indexes.new offsets.new counts.new) (answer_number result) }
{
    let roomy = room_for(
        sites.len(),
        triangles.len(),
        halfedges.len(),
        hull.len(),
        work.len(),
        vertices.len(),
        indexes.len(),
        offsets.len(),
        counts.len(),
    );
    let outlined = outline(sites, triangles, halfedges, hull, roomy, asked, work);
    if outlined.is_err_and(Refusal::of_mesh) {
        clear_all(vertices, indexes, offsets);
        mesh::clear(counts);
    }
    outlined
}

// Rule 10 alone, where those up to 9 hold and the work slice has the leftmost table; `whole` says that it is known to hold. Broken, every lent slice is cleared.
pub fn admit_fans(
    whole: bool,
    triangles: &[u32],
    halfedges: &[u32],
    sites: usize,
    work: &mut [u32],
    vertices: &mut [f64],
    indexes: &mut [u32],
    offsets: &mut [u32],
    counts: &mut [u32],
) -> Result<(), Refusal>
    requires { TryableFans triangles.now halfedges.now sites work.old × (whole ≡ true → Fan triangles.now halfedges.now (leftmost_of triangles.now halfedges.now sites)) }
    ensures { FanAdmission triangles.now halfedges.now sites
        (slices work.old vertices.old indexes.old offsets.old counts.old)
        (slices work.new vertices.new indexes.new offsets.new counts.new) (answer_number result) }
{
    if whole {
        return Ok(());
    }
    if sites <= mesh_check::fan::check_fan(triangles, halfedges, sites, work) {
        return Ok(());
    }
    clear_all(vertices, indexes, offsets);
    mesh::clear(work);
    mesh::clear(counts);
    Err(Refusal::Fan)
}

// The rules of a build up to 10. After 7 to 10 every lent slice is cleared.
pub fn admit_build(
    sites: &[f64],
    triangles: &[u32],
    halfedges: &[u32],
    hull: &[u32],
    asked: Result<(), Refusal>,
    work: &mut [u32],
    vertices: &mut [f64],
    indexes: &mut [u32],
    offsets: &mut [u32],
    counts: &mut [u32],
) -> Result<(), Refusal>
    requires { answer_number asked < refused_triangle }
    ensures { BuildAdmission (mesh sites.now triangles.now halfedges.now hull.now) (answer_number asked)
        (slices work.old vertices.old indexes.old offsets.old counts.old)
        (slices work.new vertices.new indexes.new offsets.new counts.new) (answer_number result) }
{
    admit_outline(
        sites, triangles, halfedges, hull, asked, work, vertices, indexes, offsets, counts,
    )?;
    let count = sites.len() / 2;
    admit_fans(
        false, triangles, halfedges, count, work, vertices, indexes, offsets, counts,
    )
}
