// Whether each ring runs once round, the right way: no triangle of its fan is taken off by more than the limit.
ghost use Rattle.std.specs.Prelude.{◌≡◌, [], ◌∷◌, ℕ, ◌+◌, ◌-◌, ◌/◌, ◌^◌, ◌<◌, length};
ghost use Rattle.ring_area.specs.lowest.Lowest.{lowest};
ghost use Rattle.ring_area.specs.long.Amount.{amount};
ghost use Rattle.ring_area.specs.Steps.{Corners};
ghost use Rattle.ring_area.specs.limits.Long.{LongOf};
ghost use Rattle.areas.specs.Steps.{RingsKept};
ghost use Rattle.auditing.specs.rings.Fan.{triangle_of, turns_over, folds_at, ring_folds, site_folds};

use arguments::asking::cell_count;
use ring_area::limits::{less, settled_over};
use ring_area::{LIMBS, sides};

// Whether the triangle of three entries is taken off by more than the limit.
fn turns_over(limit: &[u64], vertices: &[f64], a: u32, b: u32, c: u32) -> bool
    requires { LongOf limit.now (amount limit.now) × Corners vertices.now (a ∷ b ∷ c ∷ []) }
    ensures { (box bits : ℕ) → amount limit.now ≡ box / 2 ^ bits → result ≡ turns_over box bits (triangle_of vertices.now a b c) }
{
    let mut plus = [0u64; LIMBS];
    let mut minus = [0u64; LIMBS];
    let ring = [a, b, c];
    sides(&mut plus, &mut minus, vertices, &ring);
    let off = settled_over(&mut minus, &mut plus);
    less(limit, &off)
}

// The two triangles with corner k + 2 last.
fn folds_at(limit: &[u64], vertices: &[f64], entries: &[u32], k: usize) -> bool
    requires { LongOf limit.now (amount limit.now) × Corners vertices.now entries.now × (k + 2 < length entries.now) }
    ensures { (box bits : ℕ) → amount limit.now ≡ box / 2 ^ bits → result ≡ folds_at box bits vertices.now entries.now k }
{
    let a = entries[0];
    let b = entries[1];
    let p = entries[k + 1];
    let q = entries[k + 2];
    turns_over(limit, vertices, a, p, q) | turns_over(limit, vertices, a, b, q)
}

// The whole fan.
fn ring_folds(limit: &[u64], vertices: &[f64], entries: &[u32]) -> bool
    requires { LongOf limit.now (amount limit.now) × Corners vertices.now entries.now }
    ensures { (box bits : ℕ) → amount limit.now ≡ box / 2 ^ bits → result ≡ ring_folds box bits vertices.now entries.now }
{
    (0..entries.len().saturating_sub(2)).any(|k| folds_at(limit, vertices, entries, k))
}

// That of site s.
fn site_folds(limit: &[u64], vertices: &[f64], offsets: &[u32], indexes: &[u32], s: usize) -> bool
    requires { LongOf limit.now (amount limit.now) × RingsKept vertices.now offsets.now indexes.now × (s < length offsets.now - 1) }
    ensures { (box bits : ℕ) → amount limit.now ≡ box / 2 ^ bits → result ≡ site_folds box bits vertices.now offsets.now indexes.now s }
{
    ring_folds(limit, vertices, walks::shared::cell(offsets, indexes, s))
}

// The lowest site whose ring folds, or their number.
pub fn first_folded(limit: &[u64], vertices: &[f64], offsets: &[u32], indexes: &[u32]) -> usize
    requires { LongOf limit.now (amount limit.now) × RingsKept vertices.now offsets.now indexes.now }
    ensures { (box bits : ℕ) → amount limit.now ≡ box / 2 ^ bits
        → result ≡ lowest (site_folds box bits vertices.now offsets.now indexes.now) (length offsets.now - 1) }
{
    let count = cell_count(offsets.len());
    (0..count)
        .find(|&s| site_folds(limit, vertices, offsets, indexes, s))
        .unwrap_or(count)
}
