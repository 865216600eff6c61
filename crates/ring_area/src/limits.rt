// Long numbers of 94 limbs compared with a limit: a number divided by a power of two in place, what one sum is over another, and whether one is less.
ghost use Rattle.std.specs.Prelude.{◌≡◌, ◌-◌, ◌^◌, ◌≤◌, ◌<◌, ltb};
ghost use Rattle.ring_area.specs.long.Amount.{base, amount, WholeLimbs};
ghost use Rattle.ring_area.specs.Steps.{SumFits};
ghost use Rattle.ring_area.specs.limits.Long.{Divided, LongOf};

use crate::LIMBS;
use crate::long::{BASE, carry, difference, power};

// Divides by d, from the highest limb down.
fn divide(limbs: &mut [u64], d: u64)
    requires { (0 < d) × (d < base) × WholeLimbs limbs.old }
    ensures { Divided limbs.old limbs.new d }
{
    let mut rest: u64 = 0;
    for i in (0..limbs.len()).rev() {
        let x = rest * BASE + limbs[i];
        limbs[i] = x / d;
        rest = x % d;
    }
}

// Divides by 2^bits, in two steps.
pub fn scale(limbs: &mut [u64], bits: usize)
    requires { (bits ≤ 52) × WholeLimbs limbs.old }
    ensures { Divided limbs.old limbs.new (2 ^ bits) }
{
    let half = bits / 2;
    divide(limbs, power(half));
    divide(limbs, power(bits - half));
}

// What a is over b; 0 where it is less.
pub fn over(a: &[u64], b: &[u64]) -> [u64; LIMBS]
    requires { LongOf a.now (amount a.now) × LongOf b.now (amount b.now) }
    ensures { LongOf result (amount a.now - amount b.now) }
{
    let mut out = [0u64; LIMBS];
    if difference(&mut out, a, b) == 0 {
        return out;
    }
    let none = [0u64; LIMBS];
    none
}

// Whether a is less than b.
pub fn less(a: &[u64], b: &[u64]) -> bool
    requires { LongOf a.now (amount a.now) × LongOf b.now (amount b.now) }
    ensures { result ≡ ltb (amount a.now) (amount b.now) }
{
    let mut out = [0u64; LIMBS];
    difference(&mut out, a, b) != 0
}

// What the sum a is over the sum b, the carries of both settled.
pub fn settled_over(a: &mut [u64], b: &mut [u64]) -> [u64; LIMBS]
    requires { SumFits a.old × SumFits b.old }
    ensures { LongOf result (amount a.old - amount b.old) }
{
    carry(a);
    carry(b);
    over(a, b)
}
