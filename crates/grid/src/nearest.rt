// The check on the grid with one question more, that of the hull's short form. Where all holds every walk ends at a nearest site in use (crate
// nearest_laws); so the lowest site in no triangle is told too.
ghost use Rattle.std.specs.Prelude.{◌≡◌, ◌≢◌, ◌≤◌, length, get_or};
ghost use Rattle.base.specs.common.Decide.{First};
ghost use Rattle.base.specs.numbers.Numbers.{EMPTY};
ghost use Rattle.grid.specs.check.Promise.{grid_mesh};
ghost use Rattle.grid.specs.declared.nearest.NearestFault.TheVariants.{Grid, Hull};
ghost use Rattle.grid.specs.nearest.Judged.{of_grid, of_hull, nearest_number, nearest_kind, nearest_place};
ghost use Rattle.grid.specs.nearest.Promise.{NearestChecks};
ghost use Rattle.grid.specs.nearest.laws.Outcome.{NearestSettled, UnusedIn};

use crate::border::HullFault;
use crate::check::check_grid;
use crate::scan;
use crate::scan::GridFault;
use base::numbers::EMPTY;

// What does not hold: what the check on the grid names; or, where that holds, the hull place where the short form fails.
#[derive(Clone, Copy, Debug, PartialEq, Eq)]
pub enum NearestFault {
    Grid(GridFault),
    Hull(HullFault),
}

impl From<GridFault> for NearestFault {
    ghost from_gives = { λ f g. g ≡ Grid f };

    fn from(f: GridFault) -> NearestFault {
        NearestFault::Grid(f)
    }
}

impl From<HullFault> for NearestFault {
    ghost from_gives = { λ f g. g ≡ Hull f };

    fn from(f: HullFault) -> NearestFault {
        NearestFault::Hull(f)
    }
}

// An answer as numbers.
pub fn number_of(answer: Result<(), NearestFault>) -> u32
    ensures { result ≡ nearest_number answer }
{
    match answer {
        Err(NearestFault::Grid(fault)) => scan::number_of(Err(fault)),
        _ => 0,
    }
}

pub fn kind_of(answer: Result<(), NearestFault>) -> u32
    ensures { result ≡ nearest_kind answer }
{
    match answer {
        Ok(()) => 0,
        Err(NearestFault::Grid(fault)) => scan::kind_of(Err(fault)),
        Err(NearestFault::Hull(_)) => 3,
    }
}

pub fn place_of(answer: Result<(), NearestFault>) -> u32
    ensures { result ≡ nearest_place answer }
{
    match answer {
        Ok(()) => EMPTY,
        Err(NearestFault::Grid(fault)) => scan::place_of(Err(fault)),
        Err(NearestFault::Hull(fault)) => fault.place,
    }
}

// What the check on the grid answers, handed on.
fn of_grid(checked: Result<(), GridFault>) -> Result<(), NearestFault>
    ensures { result ≡ of_grid checked }
{
    Ok(checked?)
}

// What the hull's short form answers, handed on.
fn of_hull(judged: Result<(), HullFault>) -> Result<(), NearestFault>
    ensures { result ≡ of_hull judged }
{
    Ok(judged?)
}

// The hull is judged where the check on the grid says yes.
pub fn check_nearest(
    grid: &[i32],
    triangles: &[u32],
    halfedges: &[u32],
    hull: &[u32],
    work: &mut [u32],
) -> Result<(), NearestFault>
    ensures { NearestSettled (grid_mesh grid.now triangles.now halfedges.now hull.now) work.old work.new result }
{
    of_grid(check_grid(grid, triangles, halfedges, hull, work))?;
    of_hull(crate::border::judge(grid, hull))
}

// The lowest of the first `count` entries that is `EMPTY`, or their number.
fn first_empty(table: &[u32], count: usize) -> usize
    requires { count ≤ length table.now }
    ensures { First (λ s. get_or table.now s 0 ≢ EMPTY) count result }
{
    for s in 0..count {
        if table[s] == EMPTY {
            return s;
        }
    }
    count
}

// After the number 0 the lowest site in no triangle, by the leftmost table; `EMPTY` where there is none, and after a refusal.
pub fn unused_after(number: u32, table: &[u32], count: usize) -> u32
    requires { number ≡ 0 → (count ≤ length table.now) × (count ≤ 65536) }
    ensures { UnusedIn number table.now count result }
{
    if number != 0 {
        return EMPTY;
    }
    let s = first_empty(table, count);
    if s < count {
        return s as u32;
    }
    EMPTY
}

// The same with the answer's kind, place and unused site lent, as the C interface has it.
pub fn check_nearest_lent(
    grid: &[i32],
    triangles: &[u32],
    halfedges: &[u32],
    hull: &[u32],
    work: &mut [u32],
    kind: &mut u32,
    place: &mut u32,
    unused: &mut u32,
) -> u32
    ensures { NearestChecks (grid_mesh grid.now triangles.now halfedges.now hull.now)
        work.old work.new result kind.new place.new unused.new }
{
    let answer = check_nearest(grid, triangles, halfedges, hull, work);
    let number = number_of(answer);
    *kind = kind_of(answer);
    *place = place_of(answer);
    *unused = unused_after(number, work, grid.len() / 2);
    number
}
