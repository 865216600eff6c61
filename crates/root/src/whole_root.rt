// The whole number nearest to a root, by the schoolbook method in binary: one digit of the root at a time. docs/trust/ROOT.md has it on a page.
ghost use Rattle.std.specs.Prelude.{◌≡◌, ◌+◌, ◌*◌, ◌^◌, ◌≤◌, ◌<◌};
ghost use Rattle.root.specs.whole_root.Near.{NearWhole};
ghost use Rattle.root.specs.whole_root.Turn.{brought_down, settled, next_page, Narrow};

// 2^52: the weight of the leading digit of a significand. 27 pairs of digits, divided by it, give the first pair.
pub const LEAD: u64 = 0x10_0000_0000_0000;

// What stands on the page between two turns.
#[derive(Clone, Copy)]
pub struct Page {
    // the root of the pairs of digits brought down so far
    pub root: u64,
    // what its square leaves of them
    pub left: u64,
    // the pairs to come: 27 of them, zeros at the end, the next one at the top
    pub rest: u64,
}

// A pair of digits is brought down beside what is left, and the root gets a place for its next digit.
pub fn bring_down(p: Page) -> Page
    requires { Narrow p }
    ensures { result ≡ brought_down p }
{
    Page {
        root: p.root * 2,
        left: p.left * 4 + p.rest / LEAD,
        rest: p.rest % LEAD * 4,
    }
}

// Twice the root and one is tried. Where it goes in, the digit is 1, and what is left is less by that; else the digit is 0.
pub fn settle(p: Page) -> Page
    requires { p.root < 2 ^ 53 }
    ensures { result ≡ settled p }
{
    let twice = 2 * p.root;
    if twice < p.left {
        let tried = twice + 1;
        return Page {
            root: p.root + 1,
            left: p.left - tried,
            rest: p.rest,
        };
    }
    p
}

// One turn: one more digit of the root.
pub fn turn(p: Page) -> Page
    requires { Narrow p }
    ensures { result ≡ next_page p }
{
    settle(bring_down(p))
}

// The whole number nearest to the root of m * 2^52: 53 turns, and what is left is compared with the root.
pub fn nearest_root(m: u64) -> u64
    requires bound { 2 ^ 52 ≤ m }
    requires m_bound { m + 2 ≤ 2 ^ 54 }
    ensures { NearWhole (m * 2 ^ 52) result }
{
    let mut page = Page {
        root: 0,
        left: 0,
        rest: m,
    };
    for _ in 0..53u32 {
        page = turn(page);
    }
    if page.root < page.left {
        return page.root + 1;
    }
    page.root
}
