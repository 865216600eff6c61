// The sums of a ring of corners: the products of its sides as long numbers, what is added and what is taken off apart.
// The limbs may begin at any number that no product of the ring begins below.

#![tactic(auto)]

pub mod limits;
pub mod long;
pub mod rounded;
pub mod rounding;

ghost use Rattle.std.specs.Prelude.{◌≡◌, ◌+◌, ◌*◌, ◌<◌, length};
ghost use Rattle.std.specs.Float.{binary64};
ghost use Rattle.std.specs.Float.Ieee.{of_bits, to_bits};
ghost use Rattle.ring_area.specs.long.Amount.{lifted};
ghost use Rattle.ring_area.specs.long.Steps.{PutRoom, PutIn};
ghost use Rattle.root.specs.Bounded.{Bounded};
ghost use Rattle.root.specs.Root.{units};
ghost use Rattle.plane.specs.points.Flat.{point_at};
ghost use Rattle.ring_area.specs.Steps.{LowPattern, SplitOf, Open, ProductIn, SideIn, Corners, RingIn};
ghost use Rattle.ring_area.specs.Span.{PatternIn, CornerIn, RingPlaced, BothOpen};

use crate::long::{power, put_product};
use plane::points::Point;
use root::SIGN;
use root::whole_root::LEAD;

// The limbs of a long number: from 2^-2148, the unit of a product, up to 2^860.
pub const LIMBS: usize = 94;

// m * 2^p units of 2^-1074
#[derive(Clone, Copy)]
pub struct Significand {
    pub m: u64,
    pub p: usize,
}

// The significand and the exponent of a pattern.
pub fn split(b: u64) -> Significand
    requires { LowPattern b }
    ensures { SplitOf b result.m result.p }
{
    let e = b % SIGN / LEAD;
    let t = b % LEAD;
    if e == 0 {
        return Significand { m: t, p: 0 };
    }
    Significand {
        m: LEAD + t,
        p: (e - 1) as usize,
    }
}

// The product of two magnitudes, by their patterns, is added; `limbs` are those from number `from` on.
fn put_units(limbs: &mut [u64], from: usize, x: u64, y: u64)
    requires { LowPattern x × LowPattern y × PatternIn from (length limbs.old) x × PatternIn from (length limbs.old) y × PutRoom (lifted from limbs.old) 8 }
    ensures { PutIn (lifted from limbs.old) (lifted from limbs.new) (units (of_bits binary64 x) * units (of_bits binary64 y)) 8 }
{
    let a = split(x);
    if a.m == 0 {
        return;
    }
    let b = split(y);
    if b.m == 0 {
        return;
    }
    let e = a.p + b.p;
    put_product(limbs, e / 32 - from, a.m, b.m, power(e % 32));
}

// The product x y: added to `plus` where it is not below 0, to `minus` where it is.
fn add_product(plus: &mut [u64], minus: &mut [u64], from: usize, x: f64, y: f64)
    requires { Bounded 400 x × Bounded 400 y × BothOpen from plus.old minus.old 8
        × PatternIn from (length plus.old) (to_bits binary64 x) × PatternIn from (length plus.old) (to_bits binary64 y) }
    ensures { ProductIn x y (lifted from plus.old) (lifted from plus.new) (lifted from minus.old) (lifted from minus.new) }
{
    let a = f64::to_bits(x);
    let b = f64::to_bits(y);
    if a / SIGN == b / SIGN {
        put_units(plus, from, a, b);
    } else {
        put_units(minus, from, a, b);
    }
}

// One side, from p to q.
fn side(plus: &mut [u64], minus: &mut [u64], from: usize, p: Point, q: Point)
    requires { CornerIn from (length plus.old) p × CornerIn from (length plus.old) q × BothOpen from plus.old minus.old 16 }
    ensures { SideIn p q (lifted from plus.old) (lifted from plus.new) (lifted from minus.old) (lifted from minus.new) }
{
    add_product(plus, minus, from, p.y, q.x);
    add_product(minus, plus, from, p.x, q.y);
}

pub fn corner(vertices: &[f64], entry: u32) -> Point
    requires { 2 * entry + 1 < length vertices.now }
    ensures { result ≡ point_at vertices.now entry }
{
    plane::points::point_at(vertices, base::numbers::wide(entry))
}

// All sides of the ring, that back to its first corner included.
pub fn sides_from(
    plus: &mut [u64],
    minus: &mut [u64],
    from: usize,
    vertices: &[f64],
    entries: &[u32],
)
    requires { Corners vertices.now entries.now × RingPlaced from (length plus.old) vertices.now entries.now × (0 < length entries.now)
        × BothOpen from plus.old minus.old (16 * length entries.now) }
    ensures { RingIn vertices.now entries.now
        (lifted from plus.old) (lifted from plus.new) (lifted from minus.old) (lifted from minus.new) }
{
    let first = corner(vertices, entries[0]);
    let mut p = first;
    for i in 1..entries.len() {
        let q = corner(vertices, entries[i]);
        side(plus, minus, from, p, q);
        p = q;
    }
    side(plus, minus, from, p, first);
}

// The same in whole long numbers, which hold every ring's.
pub fn sides(plus: &mut [u64], minus: &mut [u64], vertices: &[f64], entries: &[u32])
    requires { Corners vertices.now entries.now × (0 < length entries.now) × Open plus.old (16 * length entries.now) × Open minus.old (16 * length entries.now) }
    ensures { RingIn vertices.now entries.now plus.old plus.new minus.old minus.new }
{
    sides_from(plus, minus, 0, vertices, entries);
}
