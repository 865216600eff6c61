// The checker: rule 1 on counts (crate::counts), rule 2 on the work slice, rule 6 on coordinates, and rules 7 to 10, each tried where the earlier ones hold.
ghost use Rattle.std.specs.Prelude.{◌≡◌, ◌%◌, ◌<◌, ◌≤◌, length};
ghost use Rattle.base.specs.numbers.Numbers.{EMPTY};
ghost use Rattle.mesh.specs.Mesh.{AllSound, AllPaired};
ghost use Rattle.mesh.specs.Accepted.{mesh};
ghost use Rattle.mesh_check.specs.whole.Answers.{ShapeAnswer, BorderAnswer, TopologyAnswer, OutlineAnswer, MeshAnswer};

use crate::counts::counts_ok;
use mesh::MeshFault;

// Rules 7 and 8.
fn check_shape(triangles: &[u32], halfedges: &[u32], sites: usize) -> Result<(), MeshFault>
    requires { (length triangles.now % 3 ≡ 0) × (length halfedges.now ≡ length triangles.now) }
    ensures { ShapeAnswer triangles.now halfedges.now sites result }
{
    let t = crate::pairing::check_triangles(triangles, sites);
    if t < triangles.len() / 3 {
        return Err(MeshFault::Triangle(t));
    }
    let e = crate::pairing::check_pairs(triangles, halfedges);
    if e < triangles.len() {
        return Err(MeshFault::Pairing(e));
    }
    Ok(())
}

// Rules 9 and 10, where 7 and 8 hold. If they hold too, the work slice has the leftmost table, then `EMPTY`.
pub fn check_border(
    triangles: &[u32],
    halfedges: &[u32],
    hull: &[u32],
    sites: usize,
    work: &mut [u32],
) -> Result<(), MeshFault>
    requires { (length triangles.now % 3 ≡ 0) × (length halfedges.now ≡ length triangles.now) × (length triangles.now < EMPTY)
        × (length hull.now < EMPTY) × (sites ≤ length work.old) × AllSound triangles.now sites × AllPaired triangles.now halfedges.now }
    ensures { BorderAnswer triangles.now halfedges.now hull.now sites work.old work.new result }
{
    crate::border::check_hull(triangles, halfedges, hull, sites, work)?;
    let s = crate::fan::check_fan(triangles, halfedges, sites, work);
    if s < sites {
        return Err(MeshFault::BrokenFan(s));
    }
    Ok(())
}

// Rules 7 to 10. The work slice then holds the leftmost table and then `EMPTY`, and `EMPTY` throughout after a refusal.
pub fn check_topology(
    triangles: &[u32],
    halfedges: &[u32],
    hull: &[u32],
    sites: usize,
    work: &mut [u32],
) -> Result<(), MeshFault>
    requires { (length triangles.now % 3 ≡ 0) × (length halfedges.now ≡ length triangles.now) × (length triangles.now < EMPTY)
        × (length hull.now < EMPTY) × (sites ≤ length work.old) }
    ensures { TopologyAnswer triangles.now halfedges.now hull.now sites work.old work.new result }
{
    if let Err(fault) = check_shape(triangles, halfedges, sites) {
        mesh::clear(work);
        return Err(fault);
    }
    if let Err(fault) = check_border(triangles, halfedges, hull, sites, work) {
        mesh::clear(work);
        return Err(fault);
    }
    Ok(())
}

// Rules 7 to 9 alone. The work slice is left as by rules 7 to 10.
pub fn check_outline(
    triangles: &[u32],
    halfedges: &[u32],
    hull: &[u32],
    sites: usize,
    work: &mut [u32],
) -> Result<(), MeshFault>
    requires { (length triangles.now % 3 ≡ 0) × (length halfedges.now ≡ length triangles.now) × (length triangles.now < EMPTY)
        × (length hull.now < EMPTY) × (sites ≤ length work.old) }
    ensures { OutlineAnswer triangles.now halfedges.now hull.now sites work.old work.new result }
{
    if let Err(fault) = check_shape(triangles, halfedges, sites) {
        mesh::clear(work);
        return Err(fault);
    }
    if let Err(fault) = crate::border::check_hull(triangles, halfedges, hull, sites, work) {
        mesh::clear(work);
        return Err(fault);
    }
    crate::table::put_leftmost(triangles, halfedges, work);
    Ok(())
}

// The whole check of a lent mesh.
pub fn check_mesh(
    sites: &[f64],
    triangles: &[u32],
    halfedges: &[u32],
    hull: &[u32],
    work: &mut [u32],
) -> Result<(), MeshFault>
    ensures { MeshAnswer (mesh sites.now triangles.now halfedges.now hull.now) work.old work.new result }
{
    if !counts_ok(sites.len(), triangles.len(), halfedges.len(), hull.len()) {
        return Err(MeshFault::Counts);
    }
    let count = sites.len() / 2;
    if work.len() < count {
        return Err(MeshFault::Room);
    }
    let s = plane::points::first_bad_site(sites);
    if s < count {
        return Err(MeshFault::Coordinate(s));
    }
    check_topology(triangles, halfedges, hull, count, work)
}
