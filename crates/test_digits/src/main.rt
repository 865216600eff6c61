// The schoolbook root on 2, turn by turn, then what it is rounded to: docs/trust/ROOT.md shows the first eight rows and the last.
#![tactic(auto)]

ghost use Rattle.std.specs.Prelude.{◌≡◌, ◌^◌, ◌<◌};
ghost use Rattle.root.specs.whole_root.Turn.{next_page, Narrow};

use root::whole_root::Page;

// The number whose root is found digit by digit: 2 as its 27 pairs of binary digits.
const TWO: u64 = 0x20_0000_0000_0000;

fn cell(rt: &impl Print, n: u64) {
    let _ = rt.write_all(b" ");
    let _ = rt.print(n);
    let _ = rt.write_all(b" |");
}

// The page with a pair brought down, and what is tried on it.
fn brought(rt: &impl Print, p: Page)
    requires { p.root < 2 ^ 53 }
{
    cell(rt, p.root);
    cell(rt, p.left);
    cell(rt, 2 * p.root + 1);
}

// The page with its digit settled, after the digit.
fn settled(rt: &impl Print, p: Page) {
    cell(rt, p.root % 2);
    cell(rt, p.root);
    cell(rt, p.left);
    cell(rt, p.rest);
    let _ = rt.write_all(b"\n");
}

// One turn as a row, after its number.
fn row(rt: &impl Print, i: u64, p: Page) -> Page
    requires { Narrow p }
    ensures { result ≡ next_page p }
{
    let _ = rt.write_all(b"|");
    cell(rt, i);
    brought(rt, root::whole_root::bring_down(p));
    let q = root::whole_root::turn(p);
    settled(rt, q);
    q
}

fn rounded(rt: &impl Print) {
    let _ = rt.write_all(b"rounded ");
    let _ = rt.print(root::whole_root::nearest_root(TWO));
    let _ = rt.write_all(b"\n");
}

fn main(rt: HostRuntime) {
    let mut page = Page {
        root: 0,
        left: 0,
        rest: TWO,
    };
    for i in 0..53 {
        page = row(&rt, i + 1, page);
    }
    rounded(&rt);
}
