// The areas of all pieces against the box's: their exact sum, the share that is missing, and whether it is within the limit.
ghost use Rattle.std.specs.Prelude.{◌≡◌, ℕ, ◌-◌, ◌*◌, ◌/◌, ◌^◌, ◌≤◌, leb, length};
ghost use Rattle.std.specs.Result.{is_ok};
ghost use Rattle.plane.specs.boxes.Finite.{BoundedBox};
ghost use Rattle.ring_area.specs.long.Amount.{amount};
ghost use Rattle.ring_area.specs.Steps.{Open, Corners, RingIn};
ghost use Rattle.ring_area.specs.limits.Long.{LongOf};
ghost use Rattle.areas.specs.Steps.{RingsKept};
ghost use Rattle.auditing.specs.total.Total.{apart, share_of, missing_of, total_whole};
ghost use Rattle.auditing.specs.total.Steps.{RingsIn, TotalIn};

use crate::limit::{box_area, box_sums};
use arguments::asking::cell_count;
use plane::boxes::BoundingBox;
use ring_area::limits::{less, over};
use ring_area::long::carry;
use ring_area::rounding::rounded_difference;
use ring_area::{LIMBS, sides};

// A ring's sides; none where it has no corner.
fn ring(plus: &mut [u64], minus: &mut [u64], vertices: &[f64], entries: &[u32])
    requires { Corners vertices.now entries.now × Open plus.old (16 * length entries.now) × Open minus.old (16 * length entries.now) }
    ensures { RingIn vertices.now entries.now plus.old plus.new minus.old minus.new }
{
    if entries.len() == 0 {
        return;
    }
    sides(plus, minus, vertices, entries);
}

// All rings: what they add goes to `minus`, what they take off to `plus`.
fn rings(plus: &mut [u64], minus: &mut [u64], vertices: &[f64], offsets: &[u32], indexes: &[u32])
    requires { RingsKept vertices.now offsets.now indexes.now × Open plus.old (16 * length indexes.now) × Open minus.old (16 * length indexes.now) }
    ensures { RingsIn vertices.now offsets.now indexes.now (length offsets.now - 1)
        plus.old plus.new minus.old minus.new }
{
    let count = cell_count(offsets.len());
    for s in 0..count {
        ring(
            minus,
            plus,
            vertices,
            walks::shared::cell(offsets, indexes, s),
        );
    }
}

// The box and all rings, from nothing.
fn sums(
    bounds: BoundingBox,
    plus: &mut [u64],
    minus: &mut [u64],
    vertices: &[f64],
    offsets: &[u32],
    indexes: &[u32],
)
    requires { BoundedBox 101 bounds × RingsKept vertices.now offsets.now indexes.now × Open plus.old (16 * 16777220) × Open minus.old (16 * 16777220) }
    ensures { TotalIn bounds vertices.now offsets.now indexes.now
        plus.old plus.new minus.old minus.new }
{
    box_sums(bounds, plus, minus);
    rings(plus, minus, vertices, offsets, indexes);
}

// Whether two numbers are apart by at most the limit.
fn within(limit: &[u64], plus: &[u64], minus: &[u64]) -> bool
    requires { LongOf limit.now (amount limit.now) × LongOf plus.now (amount plus.now) × LongOf minus.now (amount minus.now) }
    ensures { (box bits : ℕ) → amount limit.now ≡ box / 2 ^ bits
        → result ≡ leb (apart (amount plus.now) (amount minus.now) * 2 ^ bits) box }
{
    let a = over(plus, minus);
    let b = over(minus, plus);
    !less(limit, &a) & !less(limit, &b)
}

// The uncovered share: Ok where it is within the limit.
pub fn total(
    bounds: BoundingBox,
    limit: &[u64],
    vertices: &[f64],
    offsets: &[u32],
    indexes: &[u32],
) -> Result<f64, f64>
    requires { BoundedBox 101 bounds × LongOf limit.now (amount limit.now) × RingsKept vertices.now offsets.now indexes.now × (length offsets.now ≤ 65537) }
    ensures missing { share_of result ≡ missing_of bounds vertices.now offsets.now indexes.now }
    ensures whole { (box bits : ℕ) → amount limit.now ≡ box / 2 ^ bits
        → is_ok result ≡ total_whole box bits bounds vertices.now offsets.now indexes.now }
{
    let mut plus = [0u64; LIMBS];
    let mut minus = [0u64; LIMBS];
    sums(bounds, &mut plus, &mut minus, vertices, offsets, indexes);
    carry(&mut plus);
    carry(&mut minus);
    let missing = rounded_difference(&plus, &minus) / box_area(bounds);
    if within(limit, &plus, &minus) {
        Ok(missing)
    } else {
        Err(missing)
    }
}
