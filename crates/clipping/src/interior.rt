// A ring wholly inside the box: clipping leaves its vertices as they are, so the cell is the ring itself, its first vertex and then the others from the last to the second.
ghost use Rattle.std.specs.Prelude.{◌≡◌, ℕ, ◌+◌, ◌*◌, ◌≤◌, ◌<◌, length, get_or};
ghost use Rattle.std.proofs.lemmas.List.Edits.{sets};
ghost use Rattle.base.specs.common.Decide.{Says};
ghost use Rattle.plane.specs.points.Flat.{points};
ghost use Rattle.clipping.specs.RingWalk.{ring_of};
ghost use Rattle.clipping.specs.interior.Interior.{AllInside, inside_cell};

use crate::ring::in_box;
use plane::boxes::BoundingBox;

// Whether each of the `len` vertices from place `ring` on is a circumcenter inside the box.
pub fn all_inside(
    vertices: &[f64],
    indexes: &[u32],
    bounds: BoundingBox,
    centers: usize,
    count: usize,
    ring: usize,
    len: usize,
) -> bool
    requires { (2 * count ≤ length vertices.now) × (ring + len ≤ length indexes.now) × ((j : ℕ) → j < len → get_or indexes.now (ring + j) 0 < count) }
    ensures { Says result (AllInside bounds centers (points count vertices.now) indexes.now ring len) }
{
    for k in 0..len {
        if !in_box(vertices, count, bounds, centers, indexes[ring + k]) {
            return false;
        }
    }
    true
}

// Writes the cell of the ring of `len` vertices at place `ring` from place `base` on.
pub fn copy_ring(indexes: &mut [u32], base: usize, ring: usize, len: usize)
    requires { (base + len ≤ ring) × (ring + len ≤ length indexes.old) }
    ensures { indexes.new ≡ sets indexes.old base (inside_cell (ring_of indexes.old ring len)) }
{
    let mut at: usize = 0;
    for k in 0..len {
        indexes[base + k] = indexes[ring + at];
        at = len - (k + 1);
    }
}
