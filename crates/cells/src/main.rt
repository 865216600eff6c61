// Reads a mesh's form on standard input and prints the listing of its cells, or `refused N`.
#![tactic(auto)]

pub mod answer_text;
pub mod listing;

ghost use Rattle.std.specs.Prelude.{◌≤◌, length, take};
ghost use Rattle.plane.specs.given.Finite.{Fits};
ghost use Rattle.mesh.specs.Accepted.{mesh};
ghost use Rattle.form.specs.mesh.Read.{MeshSized};
ghost use Rattle.printing.specs.Printed.{OfMesh, Prints};
ghost use Rattle.cells.specs.Printed.{listing_text};

use form::{COORDINATES, HULL, LINKS};
use plane::given::Given;
use printing::parts::narrow;
use std::io;

fn of_mesh(
    out: &mut [u8],
    given: Given,
    sites: &[f64],
    triangles: &[u32],
    halfedges: &[u32],
    hull: &[u32],
) -> usize
    requires { MeshSized (length sites.now) (length triangles.now) (length hull.now) × Fits given × (65536 ≤ length out.old) }
    ensures { OfMesh listing_text (mesh sites.now triangles.now halfedges.now hull.now) given
        (take result out.new) × (result ≤ length out.old) }
{
    let mut work = [0u32; form::SITES];
    let mut vertices = [0.0f64; printing::VERTICES];
    let mut indexes = [0u32; printing::INDEXES];
    let mut offsets = [0u32; printing::OFFSETS];
    let mut counts = [0u32; printing::COUNTS];
    let number = base::refusal::number(building::build(
        given,
        sites,
        triangles,
        halfedges,
        hull,
        &mut work,
        &mut vertices,
        &mut indexes,
        &mut offsets,
        &mut counts,
    ));
    let n = narrow(sites.len() / 2);
    let t = narrow(triangles.len() / 3);
    crate::answer_text::show(out, number, n, t, &offsets, &indexes, &counts)
}

// What is printed for a form's bytes.
fn answer(bytes: &[u8], out: &mut [u8]) -> usize
    requires { 65536 ≤ length out.old }
    ensures { Prints listing_text bytes.now (take result out.new) × (result ≤ length out.old) }
{
    let mut sites = [0.0f64; COORDINATES];
    let mut triangles = [0u32; LINKS];
    let mut halfedges = [0u32; LINKS];
    let mut hull = [0u32; HULL];
    match form::mesh::read(
        false,
        bytes,
        &mut sites,
        &mut triangles,
        &mut halfedges,
        &mut hull,
    ) {
        Ok(mesh) => of_mesh(
            out,
            mesh.given,
            &sites[..mesh.coordinates],
            &triangles[..mesh.links],
            &halfedges[..mesh.links],
            &hull[..mesh.hull],
        ),
        Err(broken) => printing::parts::refusal(out, form::step::number_of(Err(broken))),
    }
}

fn main(rt: HostRuntime) -> io::Result<()> {
    let mut bytes = [0u8; form::BYTES];
    let mut out = [0u8; 65536];
    let n = host::read_full(&mut rt.stdin(), &mut bytes);
    let m = answer(&bytes[..n], &mut out);
    rt.write_all(&out[..m])
}
