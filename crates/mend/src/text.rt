// Writes the text of `mend` into a lent slice of bytes: each function writes its text from a place on and answers the place after it.
ghost use Rattle.std.specs.Prelude.{◌+◌, ◌*◌, ◌≤◌, length};
ghost use Rattle.octets.specs.Wrote.{Wrote, HasRoom};
ghost use Rattle.mend.specs.text.MendText.{head, mend_text};

use crate::box_line::box_line;
use crate::change_lines::{change_lines, counts_line};
use base::numbers::wide;

// What comes before the hull, in two turns: the box, and then the pairs.
fn head(out: &mut [u8], at: usize, turn: u32, first: &[u8], changes: &[u32], count: usize) -> usize
    requires { (3 * count ≤ length changes.now) × HasRoom out.old at (head turn first.now changes.now count) }
    ensures { Wrote out.old out.new at result (head turn first.now changes.now count) }
{
    if turn == 1 {
        return change_lines(out, at, b"pair", changes, 0, count);
    }
    box_line(out, at, first)
}

// The box that was put in, the changes of pairs, those of the hull, and how many of these there are.
pub fn mend_text(out: &mut [u8], first: &[u8], changes: &[u32], pairs: u32, hull: u32) -> usize
    requires { (3 * (pairs + hull) ≤ length changes.now) × HasRoom out.old 0 (mend_text first.now changes.now pairs hull) }
    ensures { Wrote out.old out.new 0 result (mend_text first.now changes.now pairs hull) }
{
    let p = wide(pairs);
    let h = wide(hull);
    let a = head(out, 0, 0, first, changes, p);
    let b = head(out, a, 1, first, changes, p);
    let c = change_lines(out, b, b"hull", changes, p, h);
    counts_line(out, c, pairs, hull)
}
