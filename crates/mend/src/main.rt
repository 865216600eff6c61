// Reads a mesh's form on standard input, works its pairs and its hull out afresh, and prints a line for each change, or with the word `form` the
// mended mesh as a form; or `refused N`. With the words `box HEX` a form of old, without a box, gets this one. Other words: a line on standard error.
#![tactic(auto)]

pub mod box_line;
pub mod boxes;
pub mod change_lines;
pub mod text;
pub mod writer;

ghost use Rattle.std.specs.Prelude.{◌≡◌, ◌&&◌, ◌+◌, ◌-◌, ◌*◌, ◌/◌, ◌≤◌, length, take};
ghost use Rattle.octets.specs.Wrote.{Wrote};
ghost use Rattle.form.specs.mesh.Read.{MeshSized};
ghost use Rattle.printing.specs.parts.Text.{ascii};
ghost use Rattle.mend.specs.boxes.Option.{IsOption, outline_of};
ghost use Rattle.mend.specs.Printed.{same_bytes, is_option, way_if, way_of, MendPrints};
ghost use Rattle.mend.specs.Steps.{first_length, MendSized, CanShow, shown_text, OfLists, put_bytes, kept_bytes};

use form::{COORDINATES, HULL, LINKS};
use std::io;

// Three numbers to a change, of a pair or of a hull place.
const CHANGES: usize = 3 * (LINKS + HULL);

// What the arguments ask for: the changes, or the mended mesh as a form; with a box given or without.
#[derive(Clone, Copy, Debug, PartialEq, Eq)]
pub struct Way {
    pub form: bool,
    pub boxed: bool,
}

fn same_bytes(word: &[u8], text: &[u8]) -> bool
    ensures { result ≡ same_bytes word.now text.now }
{
    word == text
}

// The words of the option.
fn is_option(label: &[u8], digits: &[u8]) -> bool
    ensures { result ≡ is_option label.now digits.now }
{
    same_bytes(label, b"box") && crate::boxes::is_box(digits)
}

fn way_if(ok: bool, form: bool, boxed: bool) -> Option<Way>
    ensures { result ≡ way_if ok form boxed }
{
    if ok { Some(Way { form, boxed }) } else { None }
}

// With the word `form` before the option.
fn form_and_box(first: &[u8], label: &[u8], digits: &[u8]) -> bool
    ensures { result ≡ same_bytes first.now (ascii "form") && is_option label.now digits.now }
{
    same_bytes(first, b"form") && is_option(label, digits)
}

// By how many words there are, the program's own name among them, the first after it, and the last two; none where the program takes no such words.
#[tactic(auto, unfolding(crate::specs::Printed::way_of))]
fn way_of(count: usize, first: &[u8], label: &[u8], digits: &[u8]) -> Option<Way>
    ensures { result ≡ way_of count first.now label.now digits.now }
{
    match count {
        0 | 1 => way_if(true, false, false),
        2 => way_if(same_bytes(first, b"form"), true, false),
        3 => way_if(is_option(label, digits), false, true),
        4 => way_if(form_and_box(first, label, digits), true, true),
        _ => None,
    }
}

// A word's number, counted from the end.
fn from_end(count: usize, k: usize) -> usize
    ensures { result ≡ count - k }
{
    if count < k {
        return 0;
    }
    count - k
}

// The length of the first record, by its kind: of 6 it is the kind alone, of 1 and 7 four numbers come after it.
fn first_length(clip: u8) -> usize
    ensures { (result ≡ first_length clip) × (result ≤ 33) × (1 ≤ result) }
{
    if clip == 6 {
        return 1;
    }
    33
}

// The text of a mending that was answered by this number, with so many pairs and hull places changed.
fn show(
    out: &mut [u8],
    number: u32,
    form: bool,
    first: &[u8],
    records: &[u8],
    triangles: &[u32],
    pairs: &[u32],
    hull: &[u32],
    changes: &[u32],
    repaired: u32,
    replaced: u32,
) -> usize
    requires { CanShow first.now records.now triangles.now pairs.now hull.now changes.now repaired replaced (length out.old) }
    ensures { Wrote out.old out.new 0 result (shown_text number form first.now records.now
        triangles.now pairs.now hull.now changes.now repaired replaced) }
{
    if number != 0 {
        return printing::parts::refusal(out, number);
    }
    if form {
        return crate::writer::write(out, first, records, triangles, pairs, hull);
    }
    crate::text::mend_text(out, first, changes, repaired, replaced)
}

// The text of a mesh; of its form the record that is put in and the first records that are kept are given as they stand.
fn of_mesh(
    out: &mut [u8],
    form: bool,
    first: &[u8],
    records: &[u8],
    sites: &[f64],
    triangles: &[u32],
    halfedges: &[u32],
    hull: &[u32],
) -> usize
    requires { IsOption first.now × MendSized (length first.now + length records.now) (length sites.now) (length triangles.now) (length hull.now) (length out.old) }
    ensures { OfLists form first.now records.now sites.now triangles.now halfedges.now
        hull.now (take result out.new) × (result ≤ length out.old) }
{
    let mut work = [0u32; form::SITES];
    let mut pairs = [0u32; LINKS];
    let mut mended = [0u32; HULL];
    let mut changes = [0u32; CHANGES];
    let mut places = 0u32;
    let mut repaired = 0u32;
    let mut replaced = 0u32;
    let answered = mending::mend_lent(
        sites,
        triangles,
        halfedges,
        hull,
        &mut work,
        &mut pairs,
        &mut mended,
        &mut changes,
        &mut places,
        &mut repaired,
        &mut replaced,
    );
    let number = crate::boxes::number_with(first, answered);
    let entries = triangles.len();
    let count = base::numbers::wide(places);
    show(
        out,
        number,
        form,
        first,
        records,
        triangles,
        &pairs[..entries],
        &mended[..count],
        &changes,
        repaired,
        replaced,
    )
}

// What is printed for a form whose first record is of this kind and whose mesh is in these lists.
fn of_form(
    out: &mut [u8],
    form: bool,
    option: &[u8],
    bytes: &[u8],
    kind: u8,
    sites: &[f64],
    triangles: &[u32],
    halfedges: &[u32],
    hull: &[u32],
) -> usize
    requires { IsOption option.now × (first_length kind + 17 * (length sites.now / 2) ≤ length bytes.now)
        × MeshSized (length sites.now) (length triangles.now) (length hull.now) × (32768 ≤ length out.old) }
    ensures { OfLists form (put_bytes option.now kind) (kept_bytes bytes.now kind (length sites.now / 2)) sites.now
        triangles.now halfedges.now hull.now (take result out.new) × (result ≤ length out.old) }
{
    let put = crate::boxes::put_length(kind, option.len());
    let from = crate::boxes::kept_from(kind);
    let end = first_length(kind) + 17 * (sites.len() / 2);
    of_mesh(
        out,
        form,
        &option[..put],
        &bytes[from..end],
        sites,
        triangles,
        halfedges,
        hull,
    )
}

// What is printed for a form's bytes, with the record of the option, or none.
fn answer(bytes: &[u8], form: bool, option: &[u8], out: &mut [u8]) -> usize
    requires { IsOption option.now × (32768 ≤ length out.old) }
    ensures { MendPrints form (outline_of option.now) bytes.now (take result out.new) × (result ≤ length out.old) }
{
    let old = crate::boxes::is_given(option);
    let mut sites = [0.0f64; COORDINATES];
    let mut triangles = [0u32; LINKS];
    let mut halfedges = [0u32; LINKS];
    let mut hull = [0u32; HULL];
    match form::mesh::read(
        old,
        bytes,
        &mut sites,
        &mut triangles,
        &mut halfedges,
        &mut hull,
    ) {
        Ok(mesh) => of_form(
            out,
            form,
            option,
            bytes,
            mesh.kind,
            &sites[..mesh.coordinates],
            &triangles[..mesh.links],
            &halfedges[..mesh.links],
            &hull[..mesh.hull],
        ),
        Err(broken) => printing::parts::refusal(out, form::step::number_of(Err(broken))),
    }
}

// Prints what the form on standard input becomes.
fn print(rt: &HostRuntime, form: bool, boxed: bool, digits: &[u8]) -> io::Result<()> {
    let mut bytes = [0u8; form::BYTES];
    let mut out = [0u8; 32768];
    let mut option = [0u8; 33];
    let k = crate::boxes::record_of(boxed, digits, &mut option);
    let n = host::read_full(&mut rt.stdin(), &mut bytes);
    let m = answer(&bytes[..n], form, &option[..k], &mut out);
    rt.write_all(&out[..m])
}

fn main(rt: HostRuntime) -> io::Result<()> {
    let count = host::arg_count(&rt);
    let mut first = [0u8; 8];
    let mut label = [0u8; 8];
    let mut digits = [0u8; 67];
    let a = host::arg(&rt, 1, &mut first);
    let b = host::arg(&rt, from_end(count, 2), &mut label);
    let c = host::arg(&rt, from_end(count, 1), &mut digits);
    let way = way_of(count, &first[..a], &label[..b], &digits[..c]);
    let Some(way) = way else {
        return rt
            .stderr()
            .write_all(b"usage: mend [form] [box HEX] <FORM\n");
    };
    print(&rt, way.form, way.boxed, &digits[..c])
}
