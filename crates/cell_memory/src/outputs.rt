// What a build leaves in the lent slices: what it made, then +0 and `EMPTY`; after a refusal these alone.
ghost use Rattle.std.specs.Prelude.{◌≡◌, [], ◌+◌, ◌*◌, ◌≤◌, ◌<◌, length};
ghost use Rattle.base.specs.common.Decide.{Says};
ghost use Rattle.base.specs.common.Binary64.{zero};
ghost use Rattle.base.specs.numbers.Numbers.{EMPTY};
ghost use Rattle.cell_memory.specs.layout.Rooms.{Roomy};
ghost use Rattle.cell_memory.specs.layout.Cleared.{cleared_from, padded};
ghost use Rattle.cell_memory.specs.outputs.Outputs.{Rooms, LaidOut};

use crate::layout::{fill_from, region_starts};
use base::numbers::EMPTY;

// Rule 2 on the lent vertices, indexes and offsets, by the numbers of triangles, hull sites and sites.
pub fn rooms_ok(
    triangles: usize,
    hull: usize,
    sites: usize,
    numbers: usize,
    indexes: usize,
    offsets: usize,
) -> bool
    requires { (triangles ≤ 131072) × (hull ≤ 65536) }
    ensures { Says result (Rooms triangles hull sites numbers indexes offsets) }
{
    if numbers / 2 < 7 * triangles + 5 * hull + 4 {
        return false;
    }
    if indexes < 12 * triangles + 8 * hull + 4 {
        return false;
    }
    if offsets <= sites {
        return false;
    }
    true
}

// Clears the index list and lays out the regions of all sites, each with an empty cell.
pub fn lay_out(
    triangles: &[u32],
    hull: &[u32],
    owners: [u32; 4],
    indexes: &mut [u32],
    offsets: &mut [u32],
    sites: usize,
)
    requires { Roomy triangles.now hull.now owners sites offsets.old × (3 * length triangles.now + 6 * length hull.now + length owners ≤ length indexes.old) }
    ensures { LaidOut triangles.now hull.now owners sites indexes.new offsets.new }
{
    fill_from(indexes, 0, EMPTY);
    region_starts(triangles, hull, owners, offsets, sites);
}

// Clears what is left over of both slices: of the index list after `used` entries, of the offsets after those of all sites.
pub fn clear_after(indexes: &mut [u32], offsets: &mut [u32], used: usize, sites: usize)
    requires { (used ≤ length indexes.old) × (sites < length offsets.old) }
    ensures { (indexes.new ≡ cleared_from used EMPTY indexes.old) × (offsets.new ≡ cleared_from (sites + 1) EMPTY offsets.old) }
{
    fill_from(indexes, used, EMPTY);
    fill_from(offsets, sites + 1, EMPTY);
}

// Clears the three slices whole.
pub fn clear_all(vertices: &mut [f64], indexes: &mut [u32], offsets: &mut [u32])
    ensures { (vertices.new ≡ padded (length vertices.old) zero []) × (indexes.new ≡ padded (length indexes.old) EMPTY [])
        × (offsets.new ≡ padded (length offsets.old) EMPTY []) }
{
    fill_from(vertices, 0, 0.0);
    fill_from(indexes, 0, EMPTY);
    fill_from(offsets, 0, EMPTY);
}
