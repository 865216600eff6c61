// Reads a mesh's form on standard input, makes its pieces by cutting and prints one line: `certified`, the first fault by its numbers, or `refused N`.
#![tactic(auto)]

pub mod text;

ghost use Rattle.std.specs.Prelude.{◌≡◌, ◌≤◌, length, take};
ghost use Rattle.base.specs.refusal.Number.{answer_number};
ghost use Rattle.plane.specs.given.Finite.{Fits};
ghost use Rattle.mesh.specs.Accepted.{mesh};
ghost use Rattle.cutting_calls.specs.call.Steps.{InOrder};
ghost use Rattle.form.specs.Limits.{most_coordinates};
ghost use Rattle.printing.specs.Printed.{ShownIn};
ghost use Rattle.certify.specs.Printed.{PiecesTold, CertifyTold, CertifyPrints};
ghost use Rattle.certify.specs.text.CertifyLine.{certify_text};

use base::refusal::Refusal;
use form::{COORDINATES, HULL, LINKS};
use plane::given::Given;
use std::io;

// The slices of a cutting and of its certificate, as long as every form needs them.
const CUT_VERTICES: usize = 2 * (7 * form::TRIANGLES + 2 * form::HULL + 4);

const CUT_INDEXES: usize = 16 * form::TRIANGLES + 11 * form::HULL;

// Three words to an entry, two to a site, and 64.
const CERTIFY_WORK: usize = 3 * CUT_INDEXES + 2 * form::SITES + 64;
// The tolerance is 2^-32 of the box's reach.
const CERTIFY_BITS: u32 = 32;

// The line of a cutting and of the certificate of what it made.
fn line(
    out: &mut [u8],
    cut: u32,
    number: u32,
    kind: u32,
    site: u32,
    vertex: u32,
    other: u32,
) -> usize
    requires { 65536 ≤ length out.old }
    ensures { ShownIn (certify_text cut number kind site vertex other) out.new (length out.old) result }
{
    if cut != 0 {
        return printing::parts::refusal(out, cut);
    }
    if number != 0 {
        return printing::parts::refusal(out, number);
    }
    crate::text::kind_line(out, kind, site, vertex, other)
}

// The certificate of pieces in these slices.
fn of_pieces(
    out: &mut [u8],
    given: Given,
    cut: u32,
    sites: &[f64],
    vertices: &[f64],
    offsets: &[u32],
    indexes: &[u32],
) -> usize
    requires { Fits given × (65536 ≤ length out.old) }
    ensures { PiecesTold given cut sites.now vertices.now offsets.now indexes.now
        (take result out.new) × (result ≤ length out.old) }
{
    let mut work = [0u32; CERTIFY_WORK];
    let c = certifying::call::certify(
        given,
        sites,
        vertices,
        offsets,
        indexes,
        CERTIFY_BITS,
        &mut work,
    );
    line(out, cut, c.number, c.kind, c.site, c.vertex, c.other)
}

// The number of a cutting.
fn cut_number(done: Result<u32, Refusal>) -> u32
    ensures { result ≡ answer_number done }
{
    match done {
        Ok(_) => 0,
        Err(refusal) => refusal.into(),
    }
}

// Of a mesh in a box.
fn of_mesh(
    out: &mut [u8],
    given: Given,
    sites: &[f64],
    triangles: &[u32],
    halfedges: &[u32],
    hull: &[u32],
) -> usize
    requires { (length sites.now ≤ most_coordinates) × Fits given × InOrder given × (65536 ≤ length out.old) }
    ensures { CertifyTold (mesh sites.now triangles.now halfedges.now hull.now) given
        (take result out.new) × (result ≤ length out.old) }
{
    let mut work = [0u32; form::SITES];
    let mut vertices = [0.0f64; CUT_VERTICES];
    let mut indexes = [0u32; CUT_INDEXES];
    let mut offsets = [0u32; printing::OFFSETS];
    let done = cutting_calls::call::cut(
        given,
        sites,
        triangles,
        halfedges,
        hull,
        &mut work,
        &mut vertices,
        &mut indexes,
        &mut offsets,
    );
    let n = sites.len() / 2;
    of_pieces(
        out,
        given,
        cut_number(done),
        sites,
        &vertices,
        &offsets[..n + 1],
        &indexes,
    )
}

// What is printed for a form's bytes.
fn answer(bytes: &[u8], out: &mut [u8]) -> usize
    requires { 65536 ≤ length out.old }
    ensures { CertifyPrints bytes.now (take result out.new) × (result ≤ length out.old) }
{
    let mut sites = [0.0f64; COORDINATES];
    let mut triangles = [0u32; LINKS];
    let mut halfedges = [0u32; LINKS];
    let mut hull = [0u32; HULL];
    match form::mesh::read(
        false,
        bytes,
        &mut sites,
        &mut triangles,
        &mut halfedges,
        &mut hull,
    ) {
        Ok(mesh) => of_mesh(
            out,
            mesh.given,
            &sites[..mesh.coordinates],
            &triangles[..mesh.links],
            &halfedges[..mesh.links],
            &hull[..mesh.hull],
        ),
        Err(broken) => printing::parts::refusal(out, form::step::number_of(Err(broken))),
    }
}

fn main(rt: HostRuntime) -> io::Result<()> {
    let mut bytes = [0u8; form::BYTES];
    let mut out = [0u8; 65536];
    let n = host::read_full(&mut rt.stdin(), &mut bytes);
    let m = answer(&bytes[..n], &mut out);
    rt.write_all(&out[..m])
}
