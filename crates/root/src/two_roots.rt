// The whole numbers nearest to two roots, one digit of each at a time. Each is the schoolbook's, digit for digit (`on_slip_next`, specs/two_roots/laws/Slips.antt):
// but the root's digits stand at their places from the first, and what is left is doubled, so that a turn is short and two of them take little longer than one.
ghost use Rattle.std.specs.Prelude.{◌≡◌, ◌+◌, ◌*◌, ◌^◌, ◌≤◌};
ghost use Rattle.root.specs.whole_root.Near.{NearWhole};
ghost use Rattle.root.specs.two_roots.Slip.{next_slip, rounded_slip, SlipRoom};

use crate::whole_root::LEAD;

// What stands between two turns.
#[derive(Clone, Copy)]
pub struct Slip {
    // twice the root so far
    pub twice: u64,
    // what its square leaves, doubled at each turn
    pub left: u64,
}

// One turn: twice the root and the digit's weight is tried. Where it goes in, the digit is 1, and what is left is less by that; else the digit is 0.
fn next_slip(r: Slip, weight: u64) -> Slip
    requires { SlipRoom r weight }
    ensures { result ≡ next_slip r weight }
{
    let tried = r.twice + weight;
    if tried <= r.left {
        return Slip {
            twice: tried + weight,
            left: (r.left - tried) * 2,
        };
    }
    Slip {
        twice: r.twice,
        left: r.left * 2,
    }
}

// The root after the last turn, rounded to the nearest.
fn rounded(r: Slip) -> u64
    ensures { result ≡ rounded_slip r }
{
    if r.twice < r.left {
        return r.twice / 2 + 1;
    }
    r.twice / 2
}

// The whole numbers nearest to the roots of m * 2^52 and n * 2^52: 53 turns of each.
pub fn nearest_roots(m: u64, n: u64) -> (u64, u64)
    requires bound { (2 ^ 52 ≤ m) × (m + 2 ≤ 2 ^ 54) }
    requires bound_2 { (2 ^ 52 ≤ n) × (n + 2 ≤ 2 ^ 54) }
    ensures { NearWhole (m * 2 ^ 52) result.0 × NearWhole (n * 2 ^ 52) result.1 }
{
    let mut p = Slip { twice: 0, left: m };
    let mut q = Slip { twice: 0, left: n };
    let mut weight: u64 = LEAD;
    while 0 < weight {
        p = next_slip(p, weight);
        q = next_slip(q, weight);
        weight = weight / 2;
    }
    (rounded(p), rounded(q))
}
