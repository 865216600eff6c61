// Reads a mesh's form on standard input and prints the one reason why it is refused, or what was asked of one or two sites by their numbers as
// arguments. Other words: a line on standard error.
#![tactic(auto)]

pub mod line;
pub mod site_words;

ghost use Rattle.std.specs.Prelude.{◌≤◌, length, take};
ghost use Rattle.plane.specs.given.Finite.{Fits};
ghost use Rattle.mesh.specs.Accepted.{mesh};
ghost use Rattle.form.specs.mesh.Read.{MeshSized};
ghost use Rattle.why.specs.Printed.{WhyOfMesh, FormReason, WhyPrints};

use crate::site_words::words::command_of;
use form::{COORDINATES, HULL, LINKS};
use plane::given::Given;
use reasons::{Question, Reason};
use std::io;

fn of_mesh(
    given: Given,
    sites: &[f64],
    triangles: &[u32],
    halfedges: &[u32],
    hull: &[u32],
    q: Question,
) -> Reason
    requires { MeshSized (length sites.now) (length triangles.now) (length hull.now) × Fits given }
    ensures { WhyOfMesh q (mesh sites.now triangles.now halfedges.now hull.now) given result }
{
    let mut work = [0u32; form::SITES];
    let mut vertices = [0.0f64; printing::VERTICES];
    let mut indexes = [0u32; printing::INDEXES];
    let mut offsets = [0u32; printing::OFFSETS];
    let mut counts = [0u32; printing::COUNTS];
    reasons::explaining::why(
        given,
        sites,
        triangles,
        halfedges,
        hull,
        q,
        &mut work,
        &mut vertices,
        &mut indexes,
        &mut offsets,
        &mut counts,
    )
}

// The reason for a form's bytes.
fn of_form(bytes: &[u8], q: Question) -> Reason
    ensures { FormReason q bytes.now result }
{
    let mut sites = [0.0f64; COORDINATES];
    let mut triangles = [0u32; LINKS];
    let mut halfedges = [0u32; LINKS];
    let mut hull = [0u32; HULL];
    match form::mesh::read(
        false,
        bytes,
        &mut sites,
        &mut triangles,
        &mut halfedges,
        &mut hull,
    ) {
        Ok(mesh) => of_mesh(
            mesh.given,
            &sites[..mesh.coordinates],
            &triangles[..mesh.links],
            &halfedges[..mesh.links],
            &hull[..mesh.hull],
            q,
        ),
        Err(broken) => Reason::Number(form::step::number_of(Err(broken))),
    }
}

// What is printed for a form's bytes.
fn answer(bytes: &[u8], q: Question, out: &mut [u8]) -> usize
    requires { 128 ≤ length out.old }
    ensures { WhyPrints q bytes.now (take result out.new) × (result ≤ length out.old) }
{
    let r = of_form(bytes, q);
    crate::line::reason_line(out, r)
}

// Prints the reason for the form on standard input.
fn print(rt: &HostRuntime, q: Question) -> io::Result<()> {
    let mut bytes = [0u8; form::BYTES];
    let mut out = [0u8; 128];
    let n = host::read_full(&mut rt.stdin(), &mut bytes);
    let m = answer(&bytes[..n], q, &mut out);
    rt.write_all(&out[..m])
}

fn main(rt: HostRuntime) -> io::Result<()> {
    let mut first = [0u8; 131072];
    let mut second = [0u8; 131072];
    let n = host::arg(&rt, 1, &mut first);
    let m = host::arg(&rt, 2, &mut second);
    let command = command_of(host::arg_count(&rt), &first[..n], &second[..m]);
    let Some(q) = command else {
        return rt.stderr().write_all(b"usage: why [SITE [SITE]] <FORM\n");
    };
    print(&rt, q)
}
