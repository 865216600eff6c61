// A form's bytes as a mesh: how far each lent list is filled, and the box; or the refusal. What every program over a form begins with.
ghost use Rattle.std.specs.Prelude.{◌≡◌};
ghost use Rattle.form.specs.step.Holds.{Few};
ghost use Rattle.form.specs.mesh.Read.{MeshRoom, mesh_answer, parts_of, MeshRead, RefusedAt};

use crate::step::{Broken, Sound};
use plane::given::Given;

#[derive(Clone, Copy)]
pub struct MeshParts {
    // the kind of the form's first record
    pub kind: u8,
    // the box that it gives
    pub given: Given,
    // how many entries of each list are the mesh's; triangles and half-edges have the same
    pub coordinates: usize,
    pub links: usize,
    pub hull: usize,
}

// By what the reader answered.
fn mesh_parts(form: Result<Sound, Broken>, bounds: [f64; 4]) -> Result<MeshParts, Broken>
    requires { Few form }
    ensures { result ≡ mesh_answer form bounds }
{
    let sound = form?;
    let given = crate::boxes::box_of(sound.clip, bounds);
    Ok(MeshParts {
        kind: sound.clip,
        given,
        coordinates: 2 * sound.sites,
        links: 3 * sound.triangles,
        hull: sound.hull,
    })
}

// Reads a whole form; with `old`, one of old is read too. Of a refused one the lists hold no mesh.
pub fn read(
    old: bool,
    bytes: &[u8],
    sites: &mut [f64],
    triangles: &mut [u32],
    halfedges: &mut [u32],
    hull: &mut [u32],
) -> Result<MeshParts, Broken>
    requires { MeshRoom sites.old triangles.old halfedges.old hull.old }
    ensures { MeshRead old bytes.now (parts_of result) sites.new triangles.new halfedges.new hull.new × RefusedAt old bytes.now result }
{
    let mut bounds = [0.0f64; 4];
    let form = crate::read(old, bytes, &mut bounds, sites, triangles, halfedges, hull);
    mesh_parts(form, bounds)
}
