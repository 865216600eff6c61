// What a call asks of its own arguments, each rule with its refusal: a site, a destination, a box; and whether lent cells keep theirs.
ghost use Rattle.std.specs.Prelude.{◌≡◌, ◌-◌};
ghost use Rattle.base.specs.common.Decide.{Says};
ghost use Rattle.base.specs.refusal.Number.{answer_number};
ghost use Rattle.arguments.specs.asking.Asks.{site_rules, path_rules, Asked, box_rules, CellsOf};

use base::refusal::Refusal;
use plane::points::Point;

// Rule 4.
pub fn ask_site(sites: usize, site: u32) -> Result<(), Refusal>
    ensures { Asked (site_rules sites site) (answer_number result) }
{
    if base::numbers::wide(site) < sites {
        return Ok(());
    }
    Err(Refusal::Site)
}

// Rules 4 and 5.
pub fn ask_path(sites: usize, site: u32, p: Point) -> Result<(), Refusal>
    ensures { Asked (path_rules sites site p) (answer_number result) }
{
    ask_site(sites, site)?;
    if plane::points::site_ok(p) {
        return Ok(());
    }
    Err(Refusal::Destination)
}

// Rule 3, by whether the given box keeps it.
pub fn ask_box(sound: bool) -> Result<(), Refusal>
    ensures { Asked (box_rules sound) (answer_number result) }
{
    if sound { Ok(()) } else { Err(Refusal::Box) }
}

// Rule 16.
pub fn cells_ok(offsets: &[u32], indexes: &[u32], sites: usize) -> bool
    ensures { Says result (CellsOf offsets.now indexes.now sites) }
{
    if offsets.len() == 0 {
        return false;
    }
    if offsets.len() - 1 != sites {
        return false;
    }
    walks::shared::check_cells(offsets, indexes.len())
}

// The sites that so many offsets have cells for.
pub fn cell_count(offsets: usize) -> usize
    ensures { result ≡ offsets - 1 }
{
    if offsets == 0 {
        return 0;
    }
    offsets - 1
}
