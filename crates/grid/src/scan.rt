// A mesh on the grid judged with integers alone: each triangle's turn, then each paired half-edge's circle.
ghost use Rattle.std.specs.Prelude.{◌≡◌, ◌/◌, ◌%◌, ◌<◌, length, Ok};
ghost use Rattle.base.specs.common.Decide.{First, Says};
ghost use Rattle.base.specs.common.Refusals.{Finds};
ghost use Rattle.base.specs.numbers.Numbers.{EMPTY};
ghost use Rattle.mesh.specs.Faults.{refusal_of};
ghost use Rattle.mesh.specs.Mesh.{start_of, end_of};
ghost use Rattle.grid.specs.Plane.{place_at, strictly_inside};
ghost use Rattle.grid.specs.declared.scan.GridFault.TheVariants.{Refused};
ghost use Rattle.grid.specs.scan.Judged.{apex_of, TurnAt, CircleAt, judge_rules, grid_number, grid_kind, grid_place};
ghost use Rattle.grid.specs.scan.laws.Scannable.{OnSites, Scannable};

use base::numbers::{EMPTY, wide};
use base::refusal::Refusal;
use mesh::{MeshFault, end_site, next_halfedge};

// What does not hold: the lowest triangle that does not turn as it must; or, where all do, the lowest half-edge whose far site is inside the circle; or a
// rule that refuses.
#[derive(Clone, Copy, Debug, PartialEq, Eq)]
pub enum GridFault {
    Triangle(u32),
    Halfedge(u32),
    Refused(Refusal),
}

// A fault of the mesh is a refusal by its rule.
impl From<MeshFault> for GridFault {
    ghost from_gives = { λ f g. g ≡ Refused (refusal_of f) };

    fn from(f: MeshFault) -> GridFault {
        GridFault::Refused(f.into())
    }
}

// Triangle t turns counter-clockwise with Y downward.
fn turn_at(grid: &[i32], triangles: &[u32], t: usize) -> bool
    requires { OnSites grid.now triangles.now × (t < length triangles.now / 3) }
    ensures { Says result (TurnAt grid.now triangles.now t) }
{
    let a = wide(triangles[3 * t]);
    let b = wide(triangles[3 * t + 1]);
    let c = wide(triangles[3 * t + 2]);
    crate::turns_left(grid, a, b, c)
}

// The lowest triangle that does not turn as it must, or their number.
fn check_turns(grid: &[i32], triangles: &[u32]) -> usize
    requires { OnSites grid.now triangles.now }
    ensures { First (TurnAt grid.now triangles.now) (length triangles.now / 3) result }
{
    let count = triangles.len() / 3;
    for t in 0..count {
        if !turn_at(grid, triangles, t) {
            return t;
        }
    }
    count
}

// The third site of the triangle of half-edge e.
fn apex(triangles: &[u32], e: usize) -> u32
    requires { (length triangles.now % 3 ≡ 0) × (e < length triangles.now) × (length triangles.now < EMPTY) }
    ensures { result ≡ apex_of triangles.now e }
{
    end_site(triangles, next_halfedge(e))
}

// The far site of half-edge e, the third one of the triangle of its pair p, is strictly inside the circle through the sites of the triangle of e.
fn far_inside(grid: &[i32], triangles: &[u32], e: usize, p: usize) -> bool
    requires { OnSites grid.now triangles.now × (e < length triangles.now) × (p < length triangles.now) }
    ensures { result ≡ strictly_inside (place_at grid.now (start_of triangles.now e)) (place_at grid.now (end_of triangles.now e))
        (place_at grid.now (apex_of triangles.now e)) (place_at grid.now (apex_of triangles.now p)) }
{
    let a = wide(triangles[e]);
    let b = wide(end_site(triangles, e));
    let c = wide(apex(triangles, e));
    let far = wide(apex(triangles, p));
    crate::strictly_inside(grid, a, b, c, far)
}

// Half-edge e is unpaired, or its far site is not strictly inside the circle.
fn circle_at(grid: &[i32], triangles: &[u32], halfedges: &[u32], e: usize) -> bool
    requires { Scannable grid.now triangles.now halfedges.now × (e < length triangles.now) }
    ensures { Says result (CircleAt grid.now triangles.now halfedges.now e) }
{
    let p = halfedges[e];
    if p == EMPTY {
        return true;
    }
    !far_inside(grid, triangles, e, wide(p))
}

// The lowest half-edge whose far site is strictly inside the circle, or their number: over the triangles and their three sides, left at the first offender.
fn check_circles(grid: &[i32], triangles: &[u32], halfedges: &[u32]) -> usize
    requires { Scannable grid.now triangles.now halfedges.now }
    ensures { First (CircleAt grid.now triangles.now halfedges.now) (length triangles.now) result }
{
    let count = triangles.len() / 3;
    let mut found = triangles.len();
    'triangles: for t in 0..count {
        for side in 0..3 {
            if !circle_at(grid, triangles, halfedges, 3 * t + side) {
                found = 3 * t + side;
                break 'triangles;
            }
        }
    }
    found
}

// All turns are judged before the first circle.
pub fn judge(grid: &[i32], triangles: &[u32], halfedges: &[u32]) -> Result<(), GridFault>
    requires { Scannable grid.now triangles.now halfedges.now }
    ensures { Finds (judge_rules grid.now triangles.now halfedges.now) (Ok tt) result }
{
    let t = check_turns(grid, triangles);
    if t < triangles.len() / 3 {
        return Err(GridFault::Triangle(t as u32));
    }
    let e = check_circles(grid, triangles, halfedges);
    if e < triangles.len() {
        return Err(GridFault::Halfedge(e as u32));
    }
    Ok(())
}

// An answer as numbers.
pub fn number_of(answer: Result<(), GridFault>) -> u32
    ensures { result ≡ grid_number answer }
{
    match answer {
        Err(GridFault::Refused(refusal)) => refusal.into(),
        _ => 0,
    }
}

pub fn kind_of(answer: Result<(), GridFault>) -> u32
    ensures { result ≡ grid_kind answer }
{
    match answer {
        Ok(()) => 0,
        Err(GridFault::Triangle(_)) => 1,
        Err(GridFault::Halfedge(_)) => 2,
        Err(GridFault::Refused(_)) => EMPTY,
    }
}

pub fn place_of(answer: Result<(), GridFault>) -> u32
    ensures { result ≡ grid_place answer }
{
    match answer {
        Err(GridFault::Triangle(t)) => t,
        Err(GridFault::Halfedge(e)) => e,
        _ => EMPTY,
    }
}
