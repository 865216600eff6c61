// Writes the line of a box that was put in into a lent slice of bytes: each function writes its text from a place on and answers the place after it.
ghost use Rattle.std.specs.Prelude.{◌≡◌, length};
ghost use Rattle.octets.specs.Wrote.{Wrote, HasRoom};
ghost use Rattle.mend.specs.box_line.BoxLine.{pattern_text, pattern_texts, box_line};

use octets::hex::put_turned;
use octets::put;
use printing::parts::labelled;

// A pattern of eight bytes, the lowest first.
fn pattern(out: &mut [u8], at: usize, bytes: &[u8]) -> usize
    requires { HasRoom out.old at (pattern_text bytes.now) }
    ensures { Wrote out.old out.new at result (pattern_text bytes.now) }
{
    let end = put(out, at, b" ");
    put_turned(out, end, bytes)
}

// The four numbers of a box's record.
fn patterns(out: &mut [u8], at: usize, body: &[u8]) -> usize
    requires { (length body.now ≡ 32) × HasRoom out.old at (pattern_texts body.now) }
    ensures { Wrote out.old out.new at result (pattern_texts body.now) }
{
    let a = pattern(out, at, &body[..8]);
    let b = pattern(out, a, &body[8..16]);
    let c = pattern(out, b, &body[16..24]);
    pattern(out, c, &body[24..32])
}

// The line of a box that was put in, by its record; nothing where there is none.
pub fn box_line(out: &mut [u8], at: usize, first: &[u8]) -> usize
    requires { HasRoom out.old at (box_line first.now) }
    ensures { Wrote out.old out.new at result (box_line first.now) }
{
    if first.len() != 33 {
        return at;
    }
    let a = labelled(out, at, b"box 0: 6", first[0] as u32);
    let b = patterns(out, a, &first[1..33]);
    put(out, b, b"\n")
}
