// The sites of the grid as floats, for every other call: equal numbers, nothing lost (specs/Equal).
ghost use Rattle.std.specs.Prelude.{◌≡◌, ◌≤◌, length, get_or};
ghost use Rattle.base.specs.common.Binary64.{zero};
ghost use Rattle.base.specs.common.Decide.{Says};
ghost use Rattle.base.specs.refusal.Number.{answer_number};
ghost use Rattle.grid.specs.floats.Sites.{floats_of, sites_made, SitesCounted, GridSites};

use base::refusal::Refusal;

// Rule 1 of the sites alone, by the number of coordinates.
fn sites_counted(coordinates: usize) -> bool
    ensures { Says result (SitesCounted coordinates) }
{
    if coordinates % 2 != 0 {
        return false;
    }
    if coordinates / 2 < 3 {
        return false;
    }
    if 65536 < coordinates / 2 {
        return false;
    }
    true
}

// Coordinate i as a float, +0 past the last.
fn float_at(grid: &[i32], i: usize) -> f64
    ensures { result ≡ get_or (floats_of grid.now) i zero }
{
    if i < grid.len() {
        return crate::coordinate(grid, i) as f64;
    }
    0.0
}

// The floats, then +0.
fn fill(grid: &[i32], sites: &mut [f64])
    requires { length grid.now ≤ length sites.old }
    ensures { sites.new ≡ sites_made grid.now (length sites.old) }
{
    for (i, site) in sites.iter_mut().enumerate() {
        *site = float_at(grid, i);
    }
}

// The whole call: 1, 2 and 22 leave the slice as it was.
pub fn grid_sites(grid: &[i32], sites: &mut [f64]) -> Result<(), Refusal>
    ensures { GridSites grid.now sites.old sites.new (answer_number result) }
{
    if !sites_counted(grid.len()) {
        return Err(Refusal::Count);
    }
    if sites.len() < grid.len() {
        return Err(Refusal::Room);
    }
    if crate::first_beyond(grid) < grid.len() / 2 {
        return Err(Refusal::Grid);
    }
    fill(grid, sites);
    Ok(())
}
