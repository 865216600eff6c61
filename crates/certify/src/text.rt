// Writes the line of `certify` into a lent slice of bytes, from its beginning.
ghost use Rattle.octets.specs.Wrote.{Wrote, HasRoom};
ghost use Rattle.certify.specs.text.CertifyLine.{last_text, pair_text, nearer_text, kind_text};

use octets::put;
use printing::parts::{entry, labelled};

// A number, and the line's end.
fn last(out: &mut [u8], at: usize, n: u32) -> usize
    requires { HasRoom out.old at (last_text n) }
    ensures { Wrote out.old out.new at result (last_text n) }
{
    let end = entry(out, at, n);
    put(out, end, b"\n")
}

// A label and two numbers.
fn pair(out: &mut [u8], label: &[u8], m: u32, n: u32) -> usize
    requires { HasRoom out.old 0 (pair_text label.now m n) }
    ensures { Wrote out.old out.new 0 result (pair_text label.now m n) }
{
    let end = labelled(out, 0, label, m);
    last(out, end, n)
}

// Three numbers after `nearer`.
fn nearer(out: &mut [u8], site: u32, vertex: u32, other: u32) -> usize
    requires { HasRoom out.old 0 (nearer_text site vertex other) }
    ensures { Wrote out.old out.new 0 result (nearer_text site vertex other) }
{
    let a = labelled(out, 0, b"nearer", site);
    let b = entry(out, a, vertex);
    last(out, b, other)
}

// The line of a certificate's kind, with the numbers that it names.
pub fn kind_line(out: &mut [u8], kind: u32, site: u32, vertex: u32, other: u32) -> usize
    requires { HasRoom out.old 0 (kind_text kind site vertex other) }
    ensures { Wrote out.old out.new 0 result (kind_text kind site vertex other) }
{
    if kind == 0 {
        return put(out, 0, b"certified\n");
    }
    if kind == 1 {
        return pair(out, b"outside", site, vertex);
    }
    if kind == 2 {
        return pair(out, b"side", site, vertex);
    }
    if kind == 3 {
        return put(out, 0, b"border\n");
    }
    if kind == 4 {
        return nearer(out, site, vertex, other);
    }
    pair(out, b"twin", site, other)
}
