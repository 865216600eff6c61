// Bytes written into a lent slice from a place on; each function that writes answers the place after them. Numbers go out with the lowest byte first, and
// are read in either order.

#![tactic(auto)]

pub mod hex;
pub mod patterns;

ghost use Rattle.std.specs.Prelude.{◌≡◌, reverse, ◌+◌, ◌^◌, ◌≤◌, ◌<◌, length, take, drop};
ghost use Rattle.octets.specs.Bytes.{le, word};
ghost use Rattle.octets.specs.Orders.{word_in};
ghost use Rattle.octets.specs.Wrote.{Wrote, HasRoom};

// A text.
pub fn put(out: &mut [u8], at: usize, text: &[u8]) -> usize
    requires { HasRoom out.old at text.now }
    ensures { Wrote out.old out.new at result text.now }
{
    for (i, byte) in text.iter().enumerate() {
        out[at + i] = *byte;
    }
    at + text.len()
}

// The n lowest bytes of x.
pub fn put_le(out: &mut [u8], at: usize, n: usize, x: u64) -> usize
    requires { HasRoom out.old at (le n x) }
    ensures { Wrote out.old out.new at result (le n x) }
{
    let mut rest = x;
    for i in 0..n {
        out[at + i] = (rest % 256) as u8;
        rest /= 256;
    }
    at + n
}

// The number of the n bytes from a place on, the lowest first.
fn get_le(bytes: &[u8], at: usize, n: usize) -> u64
    requires { (n ≤ 8) × (at + n ≤ length bytes.now) }
    ensures value { result ≡ word (take n (drop at bytes.now)) }
    ensures small { result < 256 ^ n }
{
    let mut x = 0;
    for i in (0..n).rev() {
        x = 256 * x + bytes[at + i] as u64;
    }
    x
}

// The highest first. Its own loop: with the order handed in, the one line that differs would not be plainer.
fn get_be(bytes: &[u8], at: usize, n: usize) -> u64
    requires { (n ≤ 8) × (at + n ≤ length bytes.now) }
    ensures value { result ≡ word (reverse (take n (drop at bytes.now))) }
    ensures small { result < 256 ^ n }
{
    let mut x = 0;
    for i in 0..n {
        x = 256 * x + bytes[at + i] as u64;
    }
    x
}

// In the order that is asked for.
pub fn get(bytes: &[u8], at: usize, n: usize, little: bool) -> u64
    requires { (n ≤ 8) × (at + n ≤ length bytes.now) }
    ensures value { result ≡ word_in little (take n (drop at bytes.now)) }
    ensures small { result < 256 ^ n }
{
    if little {
        return get_le(bytes, at, n);
    }
    get_be(bytes, at, n)
}
