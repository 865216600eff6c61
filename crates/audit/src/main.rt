// Reads a mesh's form on standard input and prints what the audit says of its cells, or `refused N`.
#![tactic(auto)]

pub mod text;
pub mod turns;

ghost use Rattle.std.specs.Prelude.{◌≡◌, ◌≤◌, length, take};
ghost use Rattle.mesh.specs.Accepted.{mesh};
ghost use Rattle.printing.specs.Printed.{OfMesh, Prints, ShownIn, shown};
ghost use Rattle.audit.specs.Printed.{told, audit_text};
ghost use Rattle.plane.specs.given.Finite.{Fits};
ghost use Rattle.form.specs.mesh.Read.{MeshSized};
ghost use Rattle.audit.specs.Shown.{Auditable, UsedParts, cut_told};

use base::numbers::wide;
use form::{COORDINATES, HULL, LINKS};
use plane::boxes::BoundingBox;
use plane::given::Given;
use printing::parts::narrow;
use std::io;

// The tolerance is 2^-20, and every piece is held against all sites.
const BITS: u32 = 20;

// The lines of a mesh and the pieces that were built of it.
fn lines(
    out: &mut [u8],
    bounds: BoundingBox,
    sites: &[f64],
    triangles: &[u32],
    vertices: &[f64],
    offsets: &[u32],
    indexes: &[u32],
) -> usize
    requires { Auditable bounds sites.now triangles.now vertices.now offsets.now indexes.now × (65536 ≤ length out.old) }
    ensures { ShownIn (told bounds sites.now triangles.now vertices.now offsets.now indexes.now)
        out.new (length out.old) result }
{
    if !areas::within(vertices, indexes) {
        return printing::parts::refusal(out, base::numbers::REFUSED_CORNER);
    }
    let none = [0u32; 0];
    let j = auditing::verdict(
        bounds, sites, vertices, offsets, indexes, &none, &none, BITS,
    );
    let count = narrow(crate::turns::count_turned(sites, triangles));
    let lowest = narrow(crate::turns::first_turned(sites, triangles));
    let total = narrow(triangles.len() / 3);
    let v = j.verdict;
    crate::text::audit_lines(out, count, total, lowest, v, j.missing)
}

// The text of a build that was answered by this number, put at the beginning of `out`; how many bytes it has. Of the slices the part that is used.
fn show(
    out: &mut [u8],
    number: u32,
    bounds: BoundingBox,
    sites: &[f64],
    triangles: &[u32],
    vertices: &[f64],
    offsets: &[u32],
    indexes: &[u32],
    counts: &[u32],
) -> usize
    requires { (number ≡ 0 → UsedParts bounds sites.now triangles.now vertices.now offsets.now indexes.now counts.now) × (9 ≤ length counts.now) × (65536 ≤ length out.old) }
    ensures { ShownIn (shown (cut_told bounds sites.now triangles.now vertices.now offsets.now indexes.now counts.now) number)
        out.new (length out.old) result }
{
    if number != 0 {
        return printing::parts::refusal(out, number);
    }
    let n = sites.len() / 2;
    let used = 2 * wide(counts[0]);
    let end = wide(offsets[n]);
    lines(
        out,
        bounds,
        sites,
        triangles,
        &vertices[..used],
        &offsets[..n + 1],
        &indexes[..end],
    )
}

fn of_mesh(
    out: &mut [u8],
    given: Given,
    sites: &[f64],
    triangles: &[u32],
    halfedges: &[u32],
    hull: &[u32],
) -> usize
    requires { MeshSized (length sites.now) (length triangles.now) (length hull.now) × Fits given × (65536 ≤ length out.old) }
    ensures { OfMesh audit_text (mesh sites.now triangles.now halfedges.now hull.now) given
        (take result out.new) × (result ≤ length out.old) }
{
    let mut work = [0u32; form::SITES];
    let mut vertices = [0.0f64; printing::VERTICES];
    let mut indexes = [0u32; printing::INDEXES];
    let mut offsets = [0u32; printing::OFFSETS];
    let mut counts = [0u32; printing::COUNTS];
    let number = base::refusal::number(building::build(
        given,
        sites,
        triangles,
        halfedges,
        hull,
        &mut work,
        &mut vertices,
        &mut indexes,
        &mut offsets,
        &mut counts,
    ));
    show(
        out,
        number,
        given.bounds,
        sites,
        triangles,
        &vertices,
        &offsets,
        &indexes,
        &counts,
    )
}

// What is printed for a form's bytes.
fn answer(bytes: &[u8], out: &mut [u8]) -> usize
    requires { 65536 ≤ length out.old }
    ensures { Prints audit_text bytes.now (take result out.new) × (result ≤ length out.old) }
{
    let mut sites = [0.0f64; COORDINATES];
    let mut triangles = [0u32; LINKS];
    let mut halfedges = [0u32; LINKS];
    let mut hull = [0u32; HULL];
    match form::mesh::read(
        false,
        bytes,
        &mut sites,
        &mut triangles,
        &mut halfedges,
        &mut hull,
    ) {
        Ok(mesh) => of_mesh(
            out,
            mesh.given,
            &sites[..mesh.coordinates],
            &triangles[..mesh.links],
            &halfedges[..mesh.links],
            &hull[..mesh.hull],
        ),
        Err(broken) => printing::parts::refusal(out, form::step::number_of(Err(broken))),
    }
}

fn main(rt: HostRuntime) -> io::Result<()> {
    let mut bytes = [0u8; form::BYTES];
    let mut out = [0u8; 65536];
    let n = host::read_full(&mut rt.stdin(), &mut bytes);
    let m = answer(&bytes[..n], &mut out);
    rt.write_all(&out[..m])
}
