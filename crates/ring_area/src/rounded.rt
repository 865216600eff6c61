// A long number of 2^-2149 rounded to the nearest f64: its size, its leading bits, the half bit, whether anything is below; then the pattern.
// Lent are its limbs from number `from` on; those below are 0.
ghost use Rattle.std.specs.Prelude.{◌≡◌, ◌+◌, ◌-◌, ◌*◌, ◌%◌, ◌^◌, ◌≤◌, ◌<◌, length, get_or, take};
ghost use Rattle.std.specs.Float.{binary64};
ghost use Rattle.std.specs.Float.Ieee.{round, size};
ghost use Rattle.base.specs.common.Decide.{Says};
ghost use Rattle.ring_area.specs.long.Amount.{base, amount, lifted, WholeLimbs};
ghost use Rattle.ring_area.specs.rounded.Rounded.{UpTo, halved_of, rounded_pattern, LeadingBits};

use crate::long::{BASE, power};
use root::SIGN;
use root::whole_root::LEAD;

// Limb i; 0 where there is none.
fn limb(limbs: &[u64], from: usize, i: usize) -> u64
    ensures { result ≡ get_or (lifted from limbs.now) i 0 }
{
    if i < from {
        return 0;
    }
    let k = i - from;
    if k < limbs.len() {
        return limbs[k];
    }
    0
}

// How many limbs there are up to the highest that is not 0.
fn used(limbs: &[u64], from: usize) -> usize
    requires { length (lifted from limbs.now) ≤ 94 }
    ensures { UpTo (lifted from limbs.now) result }
{
    for i in (0..limbs.len()).rev() {
        if limbs[i] != 0 {
            return from + (i + 1);
        }
    }
    0
}

// How many bits the number has.
fn bits(limbs: &[u64], from: usize) -> usize
    requires { WholeLimbs (lifted from limbs.now) × (length (lifted from limbs.now) ≤ 94) }
    ensures { result ≡ size (amount (lifted from limbs.now)) }
{
    let n = used(limbs, from);
    if n == 0 {
        return 0;
    }
    let zeros = u64::leading_zeros(limb(limbs, from, n - 1)) as usize;
    32 * n + 32 - zeros
}

// Whether the lowest j limbs are all 0.
fn none_below(limbs: &[u64], from: usize, j: usize) -> bool
    ensures { Says result (amount (take j (lifted from limbs.now)) ≡ 0) }
{
    for i in from..j {
        if limb(limbs, from, i) != 0 {
            return false;
        }
    }
    true
}

// Limbs i and i + 1 as one number.
fn pair(limbs: &[u64], from: usize, i: usize) -> u64
    requires { WholeLimbs (lifted from limbs.now) × (i < 2 ^ 62) }
    ensures { result ≡ get_or (lifted from limbs.now) i 0 + base * get_or (lifted from limbs.now) (i + 1) 0 }
{
    limb(limbs, from, i) + BASE * limb(limbs, from, i + 1)
}

// What is left of the number without its lowest t bits, and whether these are all 0.
#[derive(Clone, Copy)]
struct LeadingPart {
    whole: u64,
    exact: bool,
}

fn leading(limbs: &[u64], from: usize, t: usize) -> LeadingPart
    requires { WholeLimbs (lifted from limbs.now) × (amount (lifted from limbs.now) < 2 ^ (54 + t)) × (t < 2 ^ 62) }
    ensures { LeadingBits (amount (lifted from limbs.now)) t result.whole result.exact }
{
    let j = t / 32;
    let down = power(t % 32);
    let low = limb(limbs, from, j);
    let above = pair(limbs, from, j + 1);
    let clear = none_below(limbs, from, j);
    LeadingPart {
        whole: low / down + above * (BASE / down),
        exact: clear & (low % down == 0),
    }
}

// Half of q to the nearest, where something below makes a half more; a tie to the even one.
fn halved(q: u64, exact: bool) -> u64
    ensures { result ≡ halved_of q exact }
{
    let half = q / 2;
    if q % 2 == 0 {
        return half;
    }
    if exact {
        return half + half % 2;
    }
    half + 1
}

// How many bits of so many are dropped.
fn over(size: usize) -> usize
    ensures { result ≡ size - 1128 }
{
    if size < 1128 {
        return 0;
    }
    size - 1128
}

fn pattern(limbs: &[u64], from: usize) -> u64
    requires { WholeLimbs (lifted from limbs.now) × (length (lifted from limbs.now) ≤ 94) }
    ensures { (result ≡ rounded_pattern (amount (lifted from limbs.now))) × (result < 0x7FF0_0000_0000_0000) }
{
    let dropped = over(bits(limbs, from));
    let cut = leading(limbs, from, 1074 + dropped);
    (dropped as u64) * LEAD + halved(cut.whole, cut.exact)
}

// The number over 2^2149, with this sign, rounded once.
pub fn rounded(limbs: &[u64], from: usize, minus: bool) -> f64
    requires { WholeLimbs (lifted from limbs.now) × (length (lifted from limbs.now) ≤ 94) }
    ensures { result ≡ round binary64 minus (amount (lifted from limbs.now)) (2 ^ 2149) }
{
    let b = pattern(limbs, from);
    if minus {
        return f64::from_bits(SIGN + b);
    }
    f64::from_bits(b)
}
