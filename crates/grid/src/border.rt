// The hull of a mesh on the grid judged by its short form: no corner turns right inside a run of edges that go up or of edges that go down, and there is
// one place where an edge goes up after one that goes down. One pass for each, with integers alone.
ghost use Rattle.std.specs.Prelude.{◌≡◌, ◌+◌, ◌≤◌, ◌<◌, length, Ok};
ghost use Rattle.base.specs.common.Decide.{First, Says};
ghost use Rattle.base.specs.common.Pick.{pick};
ghost use Rattle.base.specs.common.Refusals.{Finds};
ghost use Rattle.grid.specs.Plane.{goes_up, turns_right};
ghost use Rattle.grid.specs.border.ShortForm.{prior_place, hull_point, CornerAt, StartAt, LoneAt, short_rules};
ghost use Rattle.grid.specs.border.laws.Hulls.{HullSites};

use base::numbers::wide;
use mesh::next_place;

// The hull place where the short form fails.
#[derive(Clone, Copy, Debug, PartialEq, Eq)]
pub struct HullFault {
    pub place: u32,
}

// The place before place i of a hull of h places, cyclically.
fn prior_place(h: usize, i: usize) -> usize
    requires { i < h }
    ensures { (result ≡ prior_place h i) × (result < h) }
{
    if i == 0 {
        return h - 1;
    }
    i - 1
}

// The edge from place i to place j goes up.
fn up_between(grid: &[i32], hull: &[u32], i: usize, j: usize) -> bool
    requires { HullSites grid.now hull.now × (i < length hull.now) × (j < length hull.now) }
    ensures { result ≡ goes_up (hull_point grid.now hull.now i) (hull_point grid.now hull.now j) }
{
    let a = wide(hull[i]);
    let b = wide(hull[j]);
    crate::goes_up(grid, a, b)
}

// Places i, j, k turn right.
fn right_between(grid: &[i32], hull: &[u32], i: usize, j: usize, k: usize) -> bool
    requires { HullSites grid.now hull.now × (i < length hull.now) × (j < length hull.now) × (k < length hull.now) }
    ensures { result ≡ turns_right (hull_point grid.now hull.now i) (hull_point grid.now hull.now j)
        (hull_point grid.now hull.now k) }
{
    let a = wide(hull[i]);
    let b = wide(hull[j]);
    let c = wide(hull[k]);
    crate::turns_left(grid, c, b, a)
}

// Place i stands between two runs, or does not turn right.
fn corner_at(grid: &[i32], hull: &[u32], i: usize) -> bool
    requires { HullSites grid.now hull.now × (i < length hull.now) }
    ensures { Says result (CornerAt grid.now hull.now i) }
{
    let before = prior_place(hull.len(), i);
    let after = next_place(hull.len(), i);
    if up_between(grid, hull, before, i) != up_between(grid, hull, i, after) {
        return true;
    }
    !right_between(grid, hull, before, i, after)
}

// At place i an edge goes up after one that goes down.
fn start_at(grid: &[i32], hull: &[u32], i: usize) -> bool
    requires { HullSites grid.now hull.now × (i < length hull.now) }
    ensures { Says result (StartAt grid.now hull.now i) }
{
    let before = prior_place(hull.len(), i);
    let after = next_place(hull.len(), i);
    !up_between(grid, hull, before, i) & up_between(grid, hull, i, after)
}

// The lowest place inside a run that turns right, or the number of places.
fn check_corners(grid: &[i32], hull: &[u32]) -> usize
    requires { HullSites grid.now hull.now }
    ensures { First (CornerAt grid.now hull.now) (length hull.now) result }
{
    for i in 0..hull.len() {
        if !corner_at(grid, hull, i) {
            return i;
        }
    }
    hull.len()
}

// How many places begin a run, after one more.
fn counted(starts: usize, start: bool) -> usize
    requires { starts ≤ 1 }
    ensures { result ≡ pick start (λ _. starts + 1) (λ _. starts) }
{
    if start {
        return starts + 1;
    }
    starts
}

// The second place where an edge goes up after one that goes down, or the number of places.
fn check_starts(grid: &[i32], hull: &[u32]) -> usize
    requires { HullSites grid.now hull.now }
    ensures { First (LoneAt grid.now hull.now) (length hull.now) result }
{
    let mut starts = 0;
    for i in 0..hull.len() {
        starts = counted(starts, start_at(grid, hull, i));
        if 1 < starts {
            return i;
        }
    }
    hull.len()
}

// All corners are judged before the places where a run begins.
pub fn judge(grid: &[i32], hull: &[u32]) -> Result<(), HullFault>
    requires { HullSites grid.now hull.now }
    ensures { Finds (short_rules grid.now hull.now) (Ok tt) result }
{
    let right = check_corners(grid, hull);
    if right < hull.len() {
        return Err(HullFault {
            place: right as u32,
        });
    }
    let second = check_starts(grid, hull);
    if second < hull.len() {
        return Err(HullFault {
            place: second as u32,
        });
    }
    Ok(())
}
