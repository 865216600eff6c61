// How cells share one index list: regions by site while they are built, moved down at the end, and what is left over cleared.
ghost use Rattle.std.specs.Prelude.{◌≡◌, ◌++◌, ◌+◌, ◌-◌, ◌≤◌, length, take, drop};
ghost use Rattle.cell_memory.specs.layout.Cleared.{cleared_from};
ghost use Rattle.cell_memory.specs.layout.Rooms.{Roomy, Started, Tallies, Tallied, Sums, Summed};
ghost use Rattle.cell_memory.specs.layout.Regions.{Filled};

use base::numbers::{EMPTY, wide};

// The entries from `from` on become `value`.
pub fn fill_from<T: Copy>(s: &mut [T], from: usize, value: T)
    requires { from ≤ length s.old }
    ensures { s.new ≡ cleared_from from value s.old }
{
    for place in &mut s[from..] {
        *place = value;
    }
}

// Where the cell ends whose region is from..to: at the first `EMPTY`, or where the region does.
pub fn cell_end(indexes: &[u32], from: usize, to: usize) -> usize
    requires { (from ≤ to) × (to ≤ length indexes.now) }
    ensures { Filled indexes.now from to result }
{
    for i in from..to {
        if indexes[i] == EMPTY {
            return i;
        }
    }
    to
}

// Copies from..to down to `at`.
pub fn move_down(indexes: &mut [u32], at: usize, from: usize, to: usize)
    requires { (at ≤ from) × (from ≤ to) × (to ≤ length indexes.old) }
    ensures { indexes.new ≡ take at indexes.old ++ take (to - from) (drop from indexes.old) ++ drop (at + (to - from)) indexes.old }
{
    indexes.copy_within(from..to, at);
}

// Adds `by` at the place after each entry of the list.
fn tally(list: &[u32], by: u32, offsets: &mut [u32])
    requires { Tallies list.now by offsets.old }
    ensures { Tallied list.now by offsets.old offsets.new }
{
    for entry in list {
        offsets[wide(*entry) + 1] += by;
    }
}

// Turns the numbers at places 1 to n into the sums up to each of them.
fn sum_up(offsets: &mut [u32], n: usize)
    requires { Sums n offsets.old }
    ensures { Summed n offsets.old offsets.new }
{
    for i in 0..n {
        offsets[i + 1] += offsets[i];
    }
}

// Where the region of each site starts, and after them where the last one ends.
pub fn region_starts(
    triangles: &[u32],
    hull: &[u32],
    owners: [u32; 4],
    offsets: &mut [u32],
    sites: usize,
)
    requires { Roomy triangles.now hull.now owners sites offsets.old }
    ensures { Started triangles.now hull.now owners sites offsets.new }
{
    fill_from(offsets, 0, 0);
    tally(triangles, 3, offsets);
    tally(hull, 6, offsets);
    tally(&owners, 1, offsets);
    sum_up(offsets, sites);
}
