// The area of each cell on lent slices: the rules in their order, then each ring's area.

#![tactic(auto)]

ghost use Rattle.std.specs.Prelude.{◌≡◌, ◌/◌, length};
ghost use Rattle.base.specs.common.Decide.{Says};
ghost use Rattle.base.specs.refusal.Number.{answer_number};
ghost use Rattle.arguments.specs.entries.Named.{EntriesNamed};
ghost use Rattle.areas.specs.Promise.{area_at, KeepsRule, EntriesNumber, AreasNumber, AreasAnswer};
ghost use Rattle.areas.specs.Steps.{RingsKept, WrittenAreas};

use arguments::asking::{cell_count, cells_ok};
use base::numbers::wide;
use base::refusal::Refusal;
use plane::centers::center_ok;
use plane::points::point_at;
use ring_area::rounding::ring_area;

// Whether each vertex that is named is within 2^400.
pub fn within(vertices: &[f64], entries: &[u32]) -> bool
    requires { EntriesNamed entries.now (length vertices.now / 2) }
    ensures { Says result (KeepsRule vertices.now entries.now) }
{
    entries
        .iter()
        .all(|e| center_ok(point_at(vertices, wide(*e))))
}

// Rules 18 and 24 on the entries of all cells.
fn ask_entries(vertices: &[f64], entries: &[u32]) -> Result<(), Refusal>
    ensures { EntriesNumber vertices.now entries.now (answer_number result) }
{
    if !arguments::entries::named(entries, vertices.len() / 2) {
        return Err(Refusal::Entry);
    }
    if !within(vertices, entries) {
        return Err(Refusal::Corner);
    }
    Ok(())
}

// Rules 1, 16, 18, 24 and 2.
fn ask(vertices: &[f64], offsets: &[u32], indexes: &[u32], room: usize) -> Result<(), Refusal>
    ensures { AreasNumber vertices.now offsets.now indexes.now room (answer_number result) }
{
    if vertices.len() % 2 != 0 {
        return Err(Refusal::Count);
    }
    if indexes.len() > 16777216 {
        return Err(Refusal::Count);
    }
    let count = cell_count(offsets.len());
    if !cells_ok(offsets, indexes, count) {
        return Err(Refusal::Offsets);
    }
    let end = wide(offsets[count]);
    ask_entries(vertices, &indexes[..end])?;
    if room < count {
        return Err(Refusal::Room);
    }
    Ok(())
}

// The area of cell s; 0 past the last.
fn area_at(vertices: &[f64], offsets: &[u32], indexes: &[u32], s: usize) -> f64
    requires { RingsKept vertices.now offsets.now indexes.now }
    ensures { result ≡ area_at vertices.now offsets.now indexes.now s }
{
    if s >= cell_count(offsets.len()) {
        return 0.0;
    }
    ring_area(vertices, walks::shared::cell(offsets, indexes, s))
}

fn write_areas(vertices: &[f64], offsets: &[u32], indexes: &[u32], areas: &mut [f64])
    requires { RingsKept vertices.now offsets.now indexes.now }
    ensures { WrittenAreas vertices.now offsets.now indexes.now areas.old areas.new }
{
    for (s, area) in areas.iter_mut().enumerate() {
        *area = area_at(vertices, offsets, indexes, s);
    }
}

// The area of each cell, then 0; where it is refused `areas` stays as it was.
pub fn cell_areas(
    vertices: &[f64],
    offsets: &[u32],
    indexes: &[u32],
    areas: &mut [f64],
) -> Result<(), Refusal>
    ensures { AreasAnswer vertices.now offsets.now indexes.now areas.old areas.new (answer_number result) }
{
    ask(vertices, offsets, indexes, areas.len())?;
    write_areas(vertices, offsets, indexes, areas);
    Ok(())
}
