// Writes the line of `nearest` into a lent slice of bytes.
ghost use Rattle.octets.specs.Wrote.{Wrote, HasRoom};
ghost use Rattle.nearest.specs.line.NearestLine.{number_line, corner_line, nearest_line};

use octets::put;
use printing::parts::labelled;

// Why it is not said that every walk ends at a nearest site: what offends; or a site that no walk reaches; or the lowest corner of the box that is no admitted
// destination; or the lowest site that is not on the grid; or a refusal's number, as the reader and the check tell it.
#[derive(Clone, Copy, Debug, PartialEq, Eq)]
pub enum Offence {
    Triangle(u32),
    Halfedge(u32),
    HullPlace(u32),
    Unused(u32),
    Corner(u32),
    OffGrid(u32),
    Refused(u32),
}

// A label, a number and the line's end.
fn number_line(out: &mut [u8], label: &[u8], n: u32) -> usize
    requires { HasRoom out.old 0 (number_line label.now n) }
    ensures { Wrote out.old out.new 0 result (number_line label.now n) }
{
    let end = labelled(out, 0, label, n);
    put(out, end, b"\n")
}

// A corner, and that it is not admitted.
fn corner_line(out: &mut [u8], c: u32) -> usize
    requires { HasRoom out.old 0 (corner_line c) }
    ensures { Wrote out.old out.new 0 result (corner_line c) }
{
    let end = labelled(out, 0, b"corner", c);
    put(out, end, b" is not admitted\n")
}

pub fn nearest_line(out: &mut [u8], answer: Result<(), Offence>) -> usize
    requires { HasRoom out.old 0 (nearest_line answer) }
    ensures { Wrote out.old out.new 0 result (nearest_line answer) }
{
    match answer {
        Ok(()) => put(out, 0, b"nearest\n"),
        Err(Offence::Triangle(t)) => number_line(out, b"triangle", t),
        Err(Offence::Halfedge(e)) => number_line(out, b"half-edge", e),
        Err(Offence::HullPlace(i)) => number_line(out, b"hull place", i),
        Err(Offence::Unused(s)) => number_line(out, b"unused", s),
        Err(Offence::Corner(c)) => corner_line(out, c),
        Err(Offence::OffGrid(s)) => number_line(out, b"not on the grid: site", s),
        Err(Offence::Refused(n)) => number_line(out, b"refused", n),
    }
}
