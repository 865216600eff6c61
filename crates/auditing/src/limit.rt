// The box as a ring: its sides in long numbers, its area rounded once, and the limit, what 2^bits leaves of it.
ghost use Rattle.std.specs.Prelude.{◌≡◌, ◌/◌, ◌^◌, ◌≤◌};
ghost use Rattle.plane.specs.boxes.Box.{corners_of};
ghost use Rattle.plane.specs.boxes.Finite.{BoundedBox};
ghost use Rattle.ring_area.specs.Area.{area};
ghost use Rattle.ring_area.specs.Steps.{Open};
ghost use Rattle.ring_area.specs.limits.Long.{LongOf};
ghost use Rattle.auditing.specs.limit.Limit.{box_twice, BoxIn};

use plane::boxes::BoundingBox;
use ring_area::limits::{scale, settled_over};
use ring_area::rounding::ring_area;
use ring_area::{LIMBS, sides};

// The sides of the box are added.
pub fn box_sums(bounds: BoundingBox, plus: &mut [u64], minus: &mut [u64])
    requires { BoundedBox 101 bounds × Open plus.old 64 × Open minus.old 64 }
    ensures { BoxIn bounds plus.old plus.new minus.old minus.new }
{
    let l = bounds.left;
    let t = bounds.top;
    let r = bounds.right;
    let b = bounds.bottom;
    let corners = [l, t, l, b, r, b, r, t];
    let ring = [0u32, 1, 2, 3];
    sides(plus, minus, &corners, &ring);
}

// Its area.
pub fn box_area(bounds: BoundingBox) -> f64
    requires { BoundedBox 101 bounds }
    ensures { result ≡ area (corners_of bounds) }
{
    let l = bounds.left;
    let t = bounds.top;
    let r = bounds.right;
    let b = bounds.bottom;
    let corners = [l, t, l, b, r, b, r, t];
    let ring = [0u32, 1, 2, 3];
    ring_area(&corners, &ring)
}

// Twice its area as a long number.
fn box_twice(bounds: BoundingBox) -> [u64; LIMBS]
    requires { BoundedBox 101 bounds }
    ensures { LongOf result (box_twice bounds) }
{
    let mut plus = [0u64; LIMBS];
    let mut minus = [0u64; LIMBS];
    box_sums(bounds, &mut plus, &mut minus);
    settled_over(&mut plus, &mut minus)
}

// The same over 2^bits.
pub fn limit(bounds: BoundingBox, bits: usize) -> [u64; LIMBS]
    requires { BoundedBox 101 bounds × (bits ≤ 52) }
    ensures { LongOf result (box_twice bounds / 2 ^ bits) }
{
    let mut out = box_twice(bounds);
    scale(&mut out, bits);
    out
}
