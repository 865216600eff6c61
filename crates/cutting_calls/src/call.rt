// The pieces by cutting on a whole lent mesh, with their refusals and every lent slice at exit.
ghost use Rattle.base.specs.refusal.Number.{answer_number};
ghost use Rattle.mesh.specs.Accepted.{mesh};
ghost use Rattle.cutting_calls.specs.cut_admission.CutSlices.{cut_slices};
ghost use Rattle.cutting_calls.specs.call.Promise.{count_of, done, CutAnswer};
ghost use Rattle.cutting_calls.specs.call.Steps.{Centered, CutCentered, Meshed, CutMesh, InOrder};

use crate::cut_admission::admit_cut;
use arguments::asking::ask_box;
use base::refusal::Refusal;
use cell_builder::rings::circumcenters::calculate_circumcenters;
use cell_memory::outputs::clear_all;
use cutting::border::check_border;
use cutting_writer::sites::cut_sites;
use plane::boxes::BoundingBox;
use plane::given::Given;

// From the circumcenters on: 25, or all pieces. Answers how many vertices there are.
fn cut_centered(
    b: BoundingBox,
    sites: &[f64],
    triangles: &[u32],
    halfedges: &[u32],
    hull: &[u32],
    table: &[u32],
    vertices: &mut [f64],
    indexes: &mut [u32],
    offsets: &mut [u32],
) -> Result<u32, Refusal>
    requires { Centered b sites.now triangles.now halfedges.now hull.now table.now vertices.old indexes.old offsets.old }
    ensures { CutCentered b sites.now triangles.now halfedges.now hull.now table.now
        vertices.old indexes.old offsets.old (done result) vertices.new indexes.new offsets.new }
{
    if let Err(refusal) = check_border(b, sites, triangles, hull, table, vertices) {
        clear_all(vertices, indexes, offsets);
        return Err(refusal);
    }
    let count = cut_sites(
        b, sites, triangles, halfedges, table, vertices, indexes, offsets,
    );
    Ok(count as u32)
}

// The circumcenters: 11, or what comes of them.
fn cut_mesh(
    b: BoundingBox,
    sites: &[f64],
    triangles: &[u32],
    halfedges: &[u32],
    hull: &[u32],
    table: &[u32],
    vertices: &mut [f64],
    indexes: &mut [u32],
    offsets: &mut [u32],
) -> Result<u32, Refusal>
    requires { Meshed b sites.now triangles.now halfedges.now hull.now table.now vertices.old indexes.old offsets.old }
    ensures { CutMesh b sites.now triangles.now halfedges.now hull.now table.now
        vertices.old indexes.old offsets.old (done result) vertices.new indexes.new offsets.new }
{
    let t = calculate_circumcenters(sites, triangles, vertices);
    if t < triangles.len() / 3 {
        clear_all(vertices, indexes, offsets);
        return Err(Refusal::Circumcenter);
    }
    cut_centered(
        b, sites, triangles, halfedges, hull, table, vertices, indexes, offsets,
    )
}

// The pieces in the given box. Answers how many vertices there are.
pub fn cut(
    given: Given,
    sites: &[f64],
    triangles: &[u32],
    halfedges: &[u32],
    hull: &[u32],
    work: &mut [u32],
    vertices: &mut [f64],
    indexes: &mut [u32],
    offsets: &mut [u32],
) -> Result<u32, Refusal>
    requires { InOrder given }
    ensures { CutAnswer (mesh sites.now triangles.now halfedges.now hull.now) given
        (cut_slices work.old vertices.old indexes.old offsets.old)
        (cut_slices work.new vertices.new indexes.new offsets.new) (answer_number result) (count_of result) }
{
    let asked = ask_box(given.sound);
    admit_cut(
        sites, triangles, halfedges, hull, asked, work, vertices, indexes, offsets,
    )?;
    let count = sites.len() / 2;
    let done = cut_mesh(
        given.bounds,
        sites,
        triangles,
        halfedges,
        hull,
        &work[..count],
        vertices,
        indexes,
        offsets,
    );
    match done {
        Ok(many) => Ok(many),
        Err(refusal) => {
            mesh::clear(work);
            Err(refusal)
        }
    }
}
