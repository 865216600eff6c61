// Whether each corner of each piece is in the box.
ghost use Rattle.std.specs.Prelude.{◌≡◌, not, ◌+◌, ◌-◌, ◌*◌, ◌/◌, ◌<◌, length};
ghost use Rattle.plane.specs.sides.Sides.{inside_of};
ghost use Rattle.plane.specs.points.Flat.{point_at};
ghost use Rattle.ring_area.specs.lowest.Lowest.{lowest};
ghost use Rattle.walks.specs.shared.Cells.{Cells};
ghost use Rattle.arguments.specs.entries.Named.{EntriesNamed};
ghost use Rattle.areas.specs.Promise.{entries_of_all};
ghost use Rattle.auditing.specs.corners.Outside.{outside_at, site_outside, entry_outside};
ghost use Rattle.auditing.specs.Steps.{OutsideNamed};

use arguments::asking::cell_count;
use plane::boxes::BoundingBox;

// Whether the vertex of an entry is outside.
fn is_outside(bounds: BoundingBox, vertices: &[f64], entry: u32) -> bool
    requires { 2 * entry + 1 < length vertices.now }
    ensures { result ≡ not (inside_of bounds (point_at vertices.now entry)) }
{
    !plane::sides::is_inside(
        bounds,
        plane::points::point_at(vertices, base::numbers::wide(entry)),
    )
}

// The first corner of a ring that is outside, or their number.
pub fn first_outside(bounds: BoundingBox, vertices: &[f64], entries: &[u32]) -> usize
    requires { EntriesNamed entries.now (length vertices.now / 2) }
    ensures { result ≡ lowest (outside_at bounds vertices.now entries.now) (length entries.now) }
{
    entries
        .iter()
        .position(|&entry| is_outside(bounds, vertices, entry))
        .unwrap_or(entries.len())
}

// The entry of the first corner of the ring of site s that is outside.
pub fn entry_outside(
    bounds: BoundingBox,
    vertices: &[f64],
    offsets: &[u32],
    indexes: &[u32],
    s: usize,
) -> u32
    requires { OutsideNamed bounds vertices.now offsets.now indexes.now s }
    ensures { result ≡ entry_outside bounds vertices.now offsets.now indexes.now s }
{
    let entries = walks::shared::cell(offsets, indexes, s);
    let k = first_outside(bounds, vertices, entries);
    entries[k]
}

// Whether the ring of site s has one.
fn site_outside(
    bounds: BoundingBox,
    vertices: &[f64],
    offsets: &[u32],
    indexes: &[u32],
    s: usize,
) -> bool
    requires { Cells offsets.now (length indexes.now) × EntriesNamed (entries_of_all offsets.now indexes.now) (length vertices.now / 2) × (s < length offsets.now - 1) }
    ensures { result ≡ site_outside bounds vertices.now offsets.now indexes.now s }
{
    let entries = walks::shared::cell(offsets, indexes, s);
    first_outside(bounds, vertices, entries) < entries.len()
}

// The lowest site whose ring has one, or their number.
pub fn first_site_outside(
    bounds: BoundingBox,
    vertices: &[f64],
    offsets: &[u32],
    indexes: &[u32],
) -> usize
    requires { Cells offsets.now (length indexes.now) × EntriesNamed (entries_of_all offsets.now indexes.now) (length vertices.now / 2) }
    ensures { result ≡ lowest (site_outside bounds vertices.now offsets.now indexes.now) (length offsets.now - 1) }
{
    let count = cell_count(offsets.len());
    (0..count)
        .find(|&s| site_outside(bounds, vertices, offsets, indexes, s))
        .unwrap_or(count)
}
