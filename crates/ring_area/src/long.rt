// A long number in limbs of 32 bits, the lowest first, over a lent slice. A limb may hold more than its 32 bits until the carries are settled.
ghost use Rattle.std.specs.Prelude.{◌≡◌, ◌+◌, ◌*◌, ◌^◌, ◌<◌, length};
ghost use Rattle.ring_area.specs.long.Amount.{base, weight, WholeLimbs};
ghost use Rattle.ring_area.specs.long.Steps.{PutRoom, PutIn, Carried, Differs};

// 2^32: what a settled limb stays below.
pub const BASE: u64 = 4294967296;

// 2^b.
pub fn power(b: usize) -> u64
    requires { b < 32 }
    ensures { result ≡ 2 ^ b }
{
    1u64 << b
}

// n * power is added at limb k: its lower 32 bits there, the rest at the next. The highest limb is left to the carries.
fn put(limbs: &mut [u64], k: usize, n: u64, power: u64)
    requires { (k + 2 < length limbs.old) × (n < base) × (power < base) × PutRoom limbs.old 1 }
    ensures { PutIn limbs.old limbs.new (n * power * weight k) 1 }
{
    let x = n * power;
    let a = limbs[k];
    let b = limbs[k + 1];
    limbs[k] = a + x % BASE;
    limbs[k + 1] = b + x / BASE;
}

// The same of an n of 64 bits, by its two halves.
fn put_halves(limbs: &mut [u64], k: usize, n: u64, power: u64)
    requires { (k + 3 < length limbs.old) × (power < base) × PutRoom limbs.old 2 }
    ensures { PutIn limbs.old limbs.new (n * power * weight k) 2 }
{
    put(limbs, k, n % BASE, power);
    put(limbs, k + 1, n / BASE, power);
}

// Of the product of x, of 32 bits, and y.
fn put_row(limbs: &mut [u64], k: usize, x: u64, y: u64, power: u64)
    requires { (k + 4 < length limbs.old) × (x < base) × (power < base) × PutRoom limbs.old 4 }
    ensures { PutIn limbs.old limbs.new (x * y * power * weight k) 4 }
{
    put_halves(limbs, k, x * (y % BASE), power);
    put_halves(limbs, k + 1, x * (y / BASE), power);
}

// Of the product of x and y: four products of halves, none of which passes 64 bits.
pub fn put_product(limbs: &mut [u64], k: usize, x: u64, y: u64, power: u64)
    requires { (k + 5 < length limbs.old) × (power < base) × PutRoom limbs.old 8 }
    ensures { PutIn limbs.old limbs.new (x * y * power * weight k) 8 }
{
    put_row(limbs, k, x % BASE, y, power);
    put_row(limbs, k + 1, x / BASE, y, power);
}

// Settles the carries from the lowest limb up; answers what is carried out of the last.
pub fn carry(limbs: &mut [u64]) -> u64
    requires { PutRoom limbs.old 0 }
    ensures { Carried limbs.old limbs.new result }
{
    let mut c: u64 = 0;
    for limb in limbs.iter_mut() {
        let x = *limb + c;
        *limb = x % BASE;
        c = x / BASE;
    }
    c
}

// a less b into `out`, limb by limb from the lowest up; answers 1 where b is more, and then a limb past the last was borrowed from.
pub fn difference(out: &mut [u64], a: &[u64], b: &[u64]) -> u64
    requires { (length a.now ≡ length out.old) × (length b.now ≡ length out.old) × WholeLimbs a.now × WholeLimbs b.now }
    ensures { Differs a.now b.now out.old out.new result }
{
    let mut borrowed: u64 = 0;
    for (i, lower) in out.iter_mut().enumerate() {
        let x = a[i] + BASE - b[i] - borrowed;
        *lower = x % BASE;
        borrowed = 1 - x / BASE;
    }
    borrowed
}
