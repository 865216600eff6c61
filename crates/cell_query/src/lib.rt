// The queries on lent cells, each the part of the index list between two offsets: one cell, and whether two cells share an edge.
// There is a site less than offsets; 4, then 16.

#![tactic(auto)]

ghost use Rattle.base.specs.refusal.Number.{answer_number};
ghost use Rattle.cell_query.specs.Cells.{CellNumber, CellAnswer, part_of, PlaceAnswer, start_of, length_of};
ghost use Rattle.cell_query.specs.SharedEdge.{told, SharesAnswer};

use arguments::asking::{ask_site, cell_count, cells_ok};
use base::refusal::Refusal;

// Whether the site has a cell.
fn ask_cell(offsets: &[u32], indexes: &[u32], site: u32) -> Result<(), Refusal>
    ensures { CellNumber offsets.now indexes.now site (answer_number result) }
{
    let count = cell_count(offsets.len());
    ask_site(count, site)?;
    if !cells_ok(offsets, indexes, count) {
        return Err(Refusal::Offsets);
    }
    Ok(())
}

// The cell itself.
pub fn cell<'a>(offsets: &[u32], indexes: &'a [u32], site: u32) -> Result<&'a [u32], Refusal>
    ensures { CellAnswer offsets.now indexes.now site (part_of result) (answer_number result) }
{
    ask_cell(offsets, indexes, site)?;
    Ok(walks::shared::cell(offsets, indexes, base::numbers::wide(site)))
}

// Where a cell stands: where it starts, and how long it is.
#[derive(Clone, Copy)]
pub struct CellPlace {
    pub start: u32,
    pub length: u32,
}

pub fn place(offsets: &[u32], indexes: &[u32], site: u32) -> Result<CellPlace, Refusal>
    ensures { PlaceAnswer offsets.now indexes.now site (start_of result) (length_of result) (answer_number result) }
{
    ask_cell(offsets, indexes, site)?;
    let s = base::numbers::wide(site);
    let start = offsets[s];
    let end = offsets[s + 1];
    Ok(CellPlace {
        start,
        length: end - start,
    })
}

// Whether the cells of sites a and b share an edge.
pub fn cells_share_edge(offsets: &[u32], indexes: &[u32], a: u32, b: u32) -> Result<bool, Refusal>
    ensures { SharesAnswer offsets.now indexes.now a b (told result) }
{
    let count = cell_count(offsets.len());
    ask_site(count, a)?;
    ask_site(count, b)?;
    if !cells_ok(offsets, indexes, count) {
        return Err(Refusal::Offsets);
    }
    Ok(walks::shared::share_edge(
        offsets,
        indexes,
        base::numbers::wide(a),
        base::numbers::wide(b),
    ))
}
