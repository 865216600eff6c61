// Reads a mesh's form on standard input and prints a line for each cell, for map tools, or `refused N`.
#![tactic(auto)]

pub mod map_text;

ghost use Rattle.std.specs.Prelude.{◌≡◌, ◌≤◌, length, take};
ghost use Rattle.mesh.specs.Accepted.{mesh};
ghost use Rattle.printing.specs.Printed.{OfMesh, Prints, ShownIn, shown};
ghost use Rattle.export.specs.Printed.{export_text};
ghost use Rattle.plane.specs.given.Finite.{Fits};
ghost use Rattle.form.specs.mesh.Read.{MeshSized};
ghost use Rattle.export.specs.Shown.{CanDraw, lines};

use form::{COORDINATES, HULL, LINKS};
use plane::given::Given;
use printing::parts::narrow;
use std::io;

// The text of a build that was answered by this number, put at the beginning of `out`; how many bytes it has.
fn show(
    out: &mut [u8],
    number: u32,
    sites: u32,
    vertices: &[f64],
    offsets: &[u32],
    indexes: &[u32],
) -> usize
    requires { (number ≡ 0 → CanDraw sites (length vertices.now) offsets.now indexes.now) × (106496 ≤ length out.old) }
    ensures { ShownIn (shown (lines sites vertices.now offsets.now indexes.now) number) out.new (length out.old) result }
{
    if number != 0 {
        return printing::parts::refusal(out, number);
    }
    crate::map_text::map_text(out, sites, vertices, offsets, indexes)
}

fn of_mesh(
    out: &mut [u8],
    given: Given,
    sites: &[f64],
    triangles: &[u32],
    halfedges: &[u32],
    hull: &[u32],
) -> usize
    requires { MeshSized (length sites.now) (length triangles.now) (length hull.now) × Fits given × (106496 ≤ length out.old) }
    ensures { OfMesh export_text (mesh sites.now triangles.now halfedges.now hull.now) given
        (take result out.new) × (result ≤ length out.old) }
{
    let mut work = [0u32; form::SITES];
    let mut vertices = [0.0f64; printing::VERTICES];
    let mut indexes = [0u32; printing::INDEXES];
    let mut offsets = [0u32; printing::OFFSETS];
    let mut counts = [0u32; printing::COUNTS];
    let number = base::refusal::number(building::build(
        given,
        sites,
        triangles,
        halfedges,
        hull,
        &mut work,
        &mut vertices,
        &mut indexes,
        &mut offsets,
        &mut counts,
    ));
    let n = narrow(sites.len() / 2);
    show(out, number, n, &vertices, &offsets, &indexes)
}

// What is printed for a form's bytes.
fn answer(bytes: &[u8], out: &mut [u8]) -> usize
    requires { 106496 ≤ length out.old }
    ensures { Prints export_text bytes.now (take result out.new) × (result ≤ length out.old) }
{
    let mut sites = [0.0f64; COORDINATES];
    let mut triangles = [0u32; LINKS];
    let mut halfedges = [0u32; LINKS];
    let mut hull = [0u32; HULL];
    match form::mesh::read(
        false,
        bytes,
        &mut sites,
        &mut triangles,
        &mut halfedges,
        &mut hull,
    ) {
        Ok(mesh) => of_mesh(
            out,
            mesh.given,
            &sites[..mesh.coordinates],
            &triangles[..mesh.links],
            &halfedges[..mesh.links],
            &hull[..mesh.hull],
        ),
        Err(broken) => printing::parts::refusal(out, form::step::number_of(Err(broken))),
    }
}

fn main(rt: HostRuntime) -> io::Result<()> {
    let mut bytes = [0u8; form::BYTES];
    let mut out = [0u8; 106496];
    let n = host::read_full(&mut rt.stdin(), &mut bytes);
    let m = answer(&bytes[..n], &mut out);
    rt.write_all(&out[..m])
}
