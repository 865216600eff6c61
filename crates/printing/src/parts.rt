// Writes what the programs' texts share into a lent slice of bytes: a number in decimal digits, alone, after a blank or after a label, and the line of a refusal.
// Each function writes its text from a place on and answers the place after it.
ghost use Rattle.std.specs.Prelude.{◌≡◌, [], ◌∷◌, ◌++◌, ◌<◌};
ghost use Rattle.printing.specs.parts.Text.{decimal};
ghost use Rattle.printing.specs.parts.Labelled.{entries, refusal};
ghost use Rattle.octets.specs.Wrote.{Wrote, HasRoom};

use octets::put;

// A count as the texts have it.
pub fn narrow(n: usize) -> u32
    requires { n < 4294967296 }
    ensures { result ≡ n }
{
    n as u32
}

pub fn decimal(out: &mut [u8], at: usize, n: u32) -> usize
    requires { HasRoom out.old at (decimal n) }
    ensures { Wrote out.old out.new at result (decimal n) }
{
    if n < 10 {
        out[at] = 48 + n as u8;
        return at + 1;
    }
    let last = decimal(out, at, n / 10);
    out[last] = 48 + (n % 10) as u8;
    last + 1
}

pub fn entry(out: &mut [u8], at: usize, n: u32) -> usize
    requires { HasRoom out.old at (entries (n ∷ [])) }
    ensures { Wrote out.old out.new at result (entries (n ∷ [])) }
{
    out[at] = b' ';
    decimal(out, at + 1, n)
}

// A label and a number.
pub fn labelled(out: &mut [u8], at: usize, label: &[u8], n: u32) -> usize
    requires { HasRoom out.old at (label.now ++ entries (n ∷ [])) }
    ensures { Wrote out.old out.new at result (label.now ++ entries (n ∷ [])) }
{
    let end = put(out, at, label);
    entry(out, end, n)
}

// The line of a refusal.
pub fn refusal(out: &mut [u8], number: u32) -> usize
    requires { HasRoom out.old 0 (refusal number) }
    ensures { Wrote out.old out.new 0 result (refusal number) }
{
    let end = labelled(out, 0, b"refused", number);
    put(out, end, b"\n")
}
