// Writes the lines of changes and the line of their counts into a lent slice of bytes: each function writes its text from a place on and answers the place after it.
ghost use Rattle.std.specs.Prelude.{◌++◌, ◌+◌, ◌*◌, ◌≤◌, length};
ghost use Rattle.octets.specs.Wrote.{Wrote, HasRoom};
ghost use Rattle.mend.specs.change_lines.ChangeLines.{or_none, change_line, change_lines, counts_line};

use base::numbers::EMPTY;
use octets::put;
use printing::parts::{entry, labelled};

// A value after a blank, or the word that there is none.
fn value(out: &mut [u8], at: usize, v: u32) -> usize
    requires { HasRoom out.old at (or_none v) }
    ensures { Wrote out.old out.new at result (or_none v) }
{
    if v == EMPTY {
        return put(out, at, b" none");
    }
    entry(out, at, v)
}

fn values(out: &mut [u8], at: usize, old: u32, new: u32) -> usize
    requires { HasRoom out.old at (or_none old ++ or_none new) }
    ensures { Wrote out.old out.new at result (or_none old ++ or_none new) }
{
    let end = value(out, at, old);
    value(out, end, new)
}

fn change_line(out: &mut [u8], at: usize, label: &[u8], place: u32, old: u32, new: u32) -> usize
    requires { HasRoom out.old at (change_line label.now place old new) }
    ensures { Wrote out.old out.new at result (change_line label.now place old new) }
{
    let a = labelled(out, at, label, place);
    let b = put(out, a, b":");
    let c = values(out, b, old, new);
    put(out, c, b"\n")
}

// The lines of `count` changes from change `from` on.
pub fn change_lines(
    out: &mut [u8],
    at: usize,
    label: &[u8],
    changes: &[u32],
    from: usize,
    count: usize,
) -> usize
    requires { (3 * (from + count) ≤ length changes.now) × HasRoom out.old at (change_lines label.now changes.now from count) }
    ensures { Wrote out.old out.new at result (change_lines label.now changes.now from count) }
{
    let mut end = at;
    for i in 0..count {
        let k = 3 * (from + i);
        end = change_line(out, end, label, changes[k], changes[k + 1], changes[k + 2]);
    }
    end
}

pub fn counts_line(out: &mut [u8], at: usize, pairs: u32, hull: u32) -> usize
    requires { HasRoom out.old at (counts_line pairs hull) }
    ensures { Wrote out.old out.new at result (counts_line pairs hull) }
{
    let a = labelled(out, at, b"pairs", pairs);
    let b = labelled(out, a, b" hull", hull);
    put(out, b, b"\n")
}
