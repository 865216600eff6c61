// Writes the lines of `audit` into a lent slice of bytes: each function writes its text from a place on and answers the place after it.
ghost use Rattle.std.specs.Prelude.{◌≡◌, ◌<◌, ◌≤◌};
ghost use Rattle.octets.specs.Wrote.{Wrote, HasRoom};
ghost use Rattle.audit.specs.text.Share.{billionths, fraction, pointed, share_text};
ghost use Rattle.audit.specs.text.AuditLines.{labelled_line, pair_line, triple_line, missing_line, verdict_line, turned_line, audit_lines};

use auditing::AuditFault;
use octets::put;
use printing::parts::{decimal, labelled};

const BILLION: u64 = 1000000000;

// The largest whole part that is shown is the largest of 32 bits.
const MOST: u64 = 4294967295999999999;

// A number of billionths without its fraction, at most MOST; MOST for what is no such number.
fn billionths(v: f64) -> u64
    ensures { result ≡ billionths v }
{
    if !(-1.0 < v) {
        return MOST;
    }
    if !(v < 18446744073709551616.0) {
        return MOST;
    }
    let n = std::num::truncating_f64_to_u64(v);
    if n < MOST {
        return n;
    }
    MOST
}

// The digits of 10^9 + f, with a point for the first.
fn fraction(out: &mut [u8], at: usize, f: u32) -> usize
    requires { (f < 1000000000) × HasRoom out.old at (fraction f) }
    ensures { Wrote out.old out.new at result (fraction f) }
{
    let end = decimal(out, at, 1000000000 + f);
    out[at] = b'.';
    end
}

// Billionths as a whole part, a point and nine digits.
fn pointed(out: &mut [u8], at: usize, n: u64) -> usize
    requires { (n ≤ 4294967295999999999) × HasRoom out.old at (pointed n) }
    ensures { Wrote out.old out.new at result (pointed n) }
{
    let end = decimal(out, at, (n / BILLION) as u32);
    fraction(out, end, (n % BILLION) as u32)
}

fn share(out: &mut [u8], at: usize, missing: f64) -> usize
    requires { HasRoom out.old at (share_text missing) }
    ensures { Wrote out.old out.new at result (share_text missing) }
{
    let v = missing * 1000000000.0;
    if v <= -1.0 {
        let end = put(out, at, b"-");
        return pointed(out, end, billionths(-v));
    }
    pointed(out, at, billionths(v))
}

fn missing_line(out: &mut [u8], at: usize, missing: f64) -> usize
    requires { HasRoom out.old at (missing_line missing) }
    ensures { Wrote out.old out.new at result (missing_line missing) }
{
    let a = put(out, at, b"missing ");
    let b = share(out, a, missing);
    put(out, b, b"\n")
}

// A label, a number, and how the line goes on.
fn number_line(out: &mut [u8], at: usize, label: &[u8], n: u32, end: &[u8]) -> usize
    requires { HasRoom out.old at (labelled_line label.now n end.now) }
    ensures { Wrote out.old out.new at result (labelled_line label.now n end.now) }
{
    let a = labelled(out, at, label, n);
    put(out, a, end)
}

// Two labelled numbers.
fn pair_line(
    out: &mut [u8],
    at: usize,
    first: &[u8],
    m: u32,
    second: &[u8],
    n: u32,
    end: &[u8],
) -> usize
    requires { HasRoom out.old at (pair_line first.now m second.now n end.now) }
    ensures { Wrote out.old out.new at result (pair_line first.now m second.now n end.now) }
{
    let a = labelled(out, at, first, m);
    number_line(out, a, second, n, end)
}

// Three.
fn triple_line(
    out: &mut [u8],
    at: usize,
    first: &[u8],
    l: u32,
    second: &[u8],
    m: u32,
    third: &[u8],
    n: u32,
) -> usize
    requires { HasRoom out.old at (triple_line first.now l second.now m third.now n) }
    ensures { Wrote out.old out.new at result (triple_line first.now l second.now m third.now n) }
{
    let a = labelled(out, at, first, l);
    pair_line(out, a, second, m, third, n, b"\n")
}

fn verdict_line(out: &mut [u8], at: usize, verdict: Result<(), AuditFault>, missing: f64) -> usize
    requires { HasRoom out.old at (verdict_line verdict missing) }
    ensures { Wrote out.old out.new at result (verdict_line verdict missing) }
{
    match verdict {
        Ok(()) => put(out, at, b"sound\n"),
        Err(AuditFault::Ring(s)) => number_line(
            out,
            at,
            b"site",
            s,
            b": its piece does not run once round, the right way\n",
        ),
        Err(AuditFault::Outside(s, e)) => {
            pair_line(
                out,
                at,
                b"site",
                s,
                b": vertex",
                e,
                b" is outside the box\n",
            )
        }
        Err(AuditFault::Nearer(s, e, o)) => {
            triple_line(
                out,
                at,
                b"site",
                s,
                b": vertex",
                e,
                b" is nearer to site",
                o,
            )
        }
        Err(AuditFault::Uncovered) => missing_line(out, at, missing),
        Err(AuditFault::Twin(s, o)) => {
            pair_line(out, at, b"sites", o, b" and", s, b" stand at one place\n")
        }
    }
}

// How many triangles are turned, of how many, and the lowest; nothing where none is.
fn turned_line(out: &mut [u8], count: u32, total: u32, lowest: u32) -> usize
    requires { HasRoom out.old 0 (turned_line count total lowest) }
    ensures { Wrote out.old out.new 0 result (turned_line count total lowest) }
{
    if count == 0 {
        return 0;
    }
    triple_line(
        out,
        0,
        b"turned",
        count,
        b" of",
        total,
        b" triangles, lowest",
        lowest,
    )
}

// Both lines.
pub fn audit_lines(
    out: &mut [u8],
    count: u32,
    total: u32,
    lowest: u32,
    verdict: Result<(), AuditFault>,
    missing: f64,
) -> usize
    requires { HasRoom out.old 0 (audit_lines count total lowest verdict missing) }
    ensures { Wrote out.old out.new 0 result (audit_lines count total lowest verdict missing) }
{
    let end = turned_line(out, count, total, lowest);
    verdict_line(out, end, verdict, missing)
}
