// The area of a ring of corners: the difference of its two sums, rounded once.
// Only the limbs that the ring's products and their carries can reach are cleared and settled: they follow from the exponents of its coordinates.
ghost use Rattle.std.specs.Prelude.{◌≡◌, ℕ, ◌+◌, ◌≤◌, ◌<◌, length};
ghost use Rattle.std.specs.Float.{binary64};
ghost use Rattle.std.specs.Float.Ieee.{to_bits};
ghost use Rattle.ring_area.specs.long.Amount.{amount, lifted, WholeLimbs};
ghost use Rattle.root.specs.Bounded.{Bounded};
ghost use Rattle.plane.specs.points.Finite.{BoundedPoint};
ghost use Rattle.ring_area.specs.Area.{rounded_half, ring_area};
ghost use Rattle.ring_area.specs.Steps.{Corners};
ghost use Rattle.ring_area.specs.Span.{RingPlaced};
ghost use Rattle.ring_area.specs.rounding.Steps.{SumHeld, AllZero, PatternReached, ReachedPoint, Widened, RingReached};

use crate::long::{carry, difference};
use crate::rounded::rounded;
use crate::{LIMBS, corner, sides_from, split};
use plane::points::Point;

// The limbs that are enough where the exponents of a ring's coordinates are within 160 of each other.
const SHORT: usize = 16;

// What is added less what is taken off, or the other way round where that is more; over 2^2149, rounded once.
fn rounded_from(out: &mut [u64], plus: &[u64], minus: &[u64], from: usize) -> f64
    requires { (length plus.now ≡ length out.old) × (length minus.now ≡ length out.old) × WholeLimbs plus.now × WholeLimbs minus.now × (from + length out.old ≤ 94) }
    ensures { result ≡ rounded_half (amount (lifted from plus.now)) (amount (lifted from minus.now)) }
{
    if difference(out, plus, minus) == 0 {
        return rounded(out, from, false);
    }
    difference(out, minus, plus);
    rounded(out, from, true)
}

// The same of whole long numbers.
pub fn rounded_difference(plus: &[u64], minus: &[u64]) -> f64
    requires { (length plus.now ≡ 94) × (length minus.now ≡ 94) × WholeLimbs plus.now × WholeLimbs minus.now }
    ensures { result ≡ rounded_half (amount plus.now) (amount minus.now) }
{
    let mut out = [0u64; LIMBS];
    rounded_from(&mut out, plus, minus, 0)
}

// The same of sums whose carries are not settled.
fn settle(out: &mut [u64], plus: &mut [u64], minus: &mut [u64], from: usize) -> f64
    requires { (length plus.old ≡ length out.old) × (length minus.old ≡ length out.old) × SumHeld plus.old × SumHeld minus.old × (from + length out.old ≤ 94) }
    ensures { result ≡ rounded_half (amount (lifted from plus.old)) (amount (lifted from minus.old)) }
{
    carry(plus);
    carry(minus);
    rounded_from(out, plus, minus, from)
}

// The area of the ring in limbs that are all 0 and hold its products.
fn area_in(
    out: &mut [u64],
    plus: &mut [u64],
    minus: &mut [u64],
    from: usize,
    vertices: &[f64],
    entries: &[u32],
) -> f64
    requires { Corners vertices.now entries.now × RingPlaced from (length out.old) vertices.now entries.now × (0 < length entries.now)
        × AllZero plus.old (length out.old) × AllZero minus.old (length out.old) × (from + length out.old ≤ 94) }
    ensures { result ≡ ring_area vertices.now entries.now }
{
    sides_from(plus, minus, from, vertices, entries);
    settle(out, plus, minus, from)
}

// In `count` limbs from number `from` on, of N that are there.
fn area_within<const N: usize>(from: usize, count: usize, vertices: &[f64], entries: &[u32]) -> f64
    requires { Corners vertices.now entries.now × RingPlaced from count vertices.now entries.now × (0 < length entries.now) × (count ≤ N) × (N ≤ 94) × (from + count ≤ 94) }
    ensures { result ≡ ring_area vertices.now entries.now }
{
    let mut out = [0u64; N];
    let mut plus = [0u64; N];
    let mut minus = [0u64; N];
    area_in(
        &mut out[..count],
        &mut plus[..count],
        &mut minus[..count],
        from,
        vertices,
        entries,
    )
}

// The least and the greatest exponent of coordinates that are not 0.
#[derive(Clone, Copy)]
struct Exponents {
    least: usize,
    most: usize,
}

// With one coordinate more.
fn widen(r: Exponents, x: f64) -> Exponents
    requires { Bounded 400 x }
    ensures { Widened r.least r.most result.least result.most × PatternReached result.least result.most (to_bits binary64 x) }
{
    let s = split(f64::to_bits(x));
    if s.m == 0 {
        return r;
    }
    Exponents {
        least: r.least.min(s.p),
        most: r.most.max(s.p),
    }
}

fn widen_corner(r: Exponents, p: Point) -> Exponents
    requires { BoundedPoint 400 p }
    ensures { Widened r.least r.most result.least result.most × ReachedPoint result.least result.most p }
{
    widen(widen(r, p.x), p.y)
}

// Of all corners of the ring.
fn reach(vertices: &[f64], entries: &[u32]) -> Exponents
    requires { Corners vertices.now entries.now }
    ensures { RingReached vertices.now entries.now result.least result.most }
{
    let mut r = Exponents {
        least: 1422,
        most: 0,
    };
    for entry in entries {
        r = widen_corner(r, corner(vertices, *entry));
    }
    r
}

// The area of the ring that the entries name. A product of exponents p and q begins at limb (p + q) / 32 and has five, and one more is for the carries.
pub fn ring_area(vertices: &[f64], entries: &[u32]) -> f64
    requires { Corners vertices.now entries.now }
    ensures { result ≡ ring_area vertices.now entries.now }
{
    if entries.len() == 0 {
        return 0.0;
    }
    let r = reach(vertices, entries);
    let from = r.least.min(r.most) / 16;
    let count = r.most / 16 + 6 - from;
    if count <= SHORT {
        return area_within::<SHORT>(from, count, vertices, entries);
    }
    area_within::<LIMBS>(from, count, vertices, entries)
}
