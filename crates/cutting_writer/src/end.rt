// The end of a piece: what closes it is left out, fewer than three entries are none, and it is turned round.
ghost use Rattle.std.specs.Prelude.{◌≡◌, ◌≤◌, length};
ghost use Rattle.cutting_writer.specs.turn.Turned.{turned_round};
ghost use Rattle.cutting_writer.specs.end.Ended.{closed_at, kept_at, pen_ended};

use crate::turn::turn_round;
use cutting::pen::{Pen, same_place};

// Where the piece ends without its last place, where that is the first again.
fn closed_at(begin: usize, pen: Pen) -> usize
    requires { begin ≤ pen.at }
    ensures { (result ≡ closed_at begin pen) × (begin ≤ result) × (result ≤ pen.at) }
{
    if pen.at - begin < 2 {
        return pen.at;
    }
    match pen.ends {
        Some(e) if same_place(e.first, e.last) => pen.at - 1,
        _ => pen.at,
    }
}

fn kept_at(begin: usize, at: usize) -> usize
    requires { begin ≤ at }
    ensures { (result ≡ kept_at begin at) × (begin ≤ result) × (result ≤ at) }
{
    if at - begin < 3 {
        return begin;
    }
    at
}

// The piece that was written from `begin` on.
pub fn end_piece(begin: usize, pen: Pen, indexes: &mut [u32]) -> Pen
    requires { (begin ≤ pen.at) × (pen.at ≤ length indexes.old) }
    ensures { (result ≡ pen_ended begin pen) × (indexes.new ≡ turned_round begin result.at indexes.old) }
{
    let closed = closed_at(begin, pen);
    let at = kept_at(begin, closed);
    turn_round(indexes, begin, at);
    Pen {
        at,
        count: pen.count,
        ends: None,
    }
}
