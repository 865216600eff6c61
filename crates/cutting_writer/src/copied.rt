// A ring that is bounded and lies wholly in the box, of which it is known before how long it will be: walked once, from both ends, and copied.
// So the next ring's walk need not wait for the end of this one's.
ghost use Rattle.std.specs.Prelude.{◌≡◌, true, IfSome, MatchOption, ◌+◌, ◌*◌, ◌/◌, ◌%◌, ◌≤◌, ◌<◌, length};
ghost use Rattle.base.specs.numbers.Numbers.{EMPTY};
ghost use Rattle.mesh.specs.Mesh.{next_of};
ghost use Rattle.cutting.specs.pen.Pen.{page};
ghost use Rattle.cutting_writer.specs.turn.Turned.{turned_round};
ghost use Rattle.cutting_writer.specs.copied.Copied.{laid_to, Steppable, LapCorner, JoinedTo, BothStepped, EndsMeet, Begun, LapLaid, Laps, CopiedInto};

use crate::site::on_hull;
use base::numbers::wide;
use cutting::pen::{Pen, same_place};
use mesh::next_halfedge;
use plane::boxes::BoundingBox;
use plane::points::{Point, point_at};
use plane::sides::is_inside;

// The half-edge that a step came to, and its place.
#[derive(Clone, Copy)]
pub struct Step {
    pub e: u32,
    pub place: Point,
}

// The same from both ends: e was come to by a step on, f by a step back.
#[derive(Clone, Copy)]
pub struct TwoEnds {
    pub e: u32,
    pub last: Point,
    pub f: u32,
    pub next: Point,
}

// The half-edge before p in its triangle.
fn previous(p: u32) -> u32
    requires { p < EMPTY }
    ensures { (next_of result ≡ p) × (result / 3 ≡ p / 3) }
{
    if p % 3 == 0 {
        return p + 2;
    }
    p - 1
}

// The step from e, whose place is `last`, leads to f, and that to another place, `next`.
fn joined(halfedges: &[u32], e: u32, last: Point, f: u32, next: Point) -> bool
    requires { (length halfedges.now < EMPTY) × (length halfedges.now % 3 ≡ 0) × (e < length halfedges.now) }
    ensures { result ≡ true → JoinedTo halfedges.now e last f next }
{
    if halfedges[next_halfedge(wide(e))] != f {
        return false;
    }
    !same_place(last, next)
}

// One step of the walk from t, from e, whose place is `last`, where it is as expected.
fn step_on(
    b: BoundingBox,
    halfedges: &[u32],
    centers: &[f64],
    t: u32,
    e: u32,
    last: Point,
) -> Option<Step>
    requires { Steppable halfedges.now centers.now × (e < length halfedges.now) }
    ensures { IfSome result (λ s. LapCorner b halfedges.now centers.now t s.e s.place × JoinedTo halfedges.now e last s.e s.place) }
{
    let a = halfedges[next_halfedge(wide(e))];
    if halfedges.len() <= wide(a) {
        return None;
    }
    if a == t {
        return None;
    }
    let p = point_at(centers, wide(a / 3));
    if !is_inside(b, p) {
        return None;
    }
    if same_place(last, p) {
        return None;
    }
    Some(Step { e: a, place: p })
}

// One step from both ends of the walk from t, where both are as expected: on from e, whose place is `last`, and back from f, whose place is `next`.
fn step_both(
    b: BoundingBox,
    halfedges: &[u32],
    centers: &[f64],
    t: u32,
    e: u32,
    last: Point,
    f: u32,
    next: Point,
) -> Option<TwoEnds>
    requires { Steppable halfedges.now centers.now × (e < length halfedges.now) × (f < length halfedges.now) }
    ensures { IfSome result (λ r. BothStepped b halfedges.now centers.now t e last f next r.e r.last r.f r.next) }
{
    let a = halfedges[next_halfedge(wide(e))];
    let p = halfedges[wide(f)];
    if halfedges.len() <= wide(a) {
        return None;
    }
    if halfedges.len() <= wide(p) {
        return None;
    }
    let g = previous(p);
    let x = point_at(centers, wide(a / 3));
    let y = point_at(centers, wide(p / 3));
    if a == t {
        return None;
    }
    if g == t {
        return None;
    }
    if halfedges[wide(p)] != f {
        return None;
    }
    if !(is_inside(b, x) & is_inside(b, y)) {
        return None;
    }
    if same_place(last, x) | same_place(y, next) {
        return None;
    }
    Some(TwoEnds {
        e: a,
        last: x,
        f: g,
        next: y,
    })
}

// Whether the two ends meet: at i there is room for one more triangle, or that is f's place.
fn meet(
    b: BoundingBox,
    halfedges: &[u32],
    centers: &[f64],
    t: u32,
    i: usize,
    j: usize,
    e: u32,
    last: Point,
    f: u32,
    next: Point,
    stage: &mut [u32],
) -> bool
    requires { Steppable halfedges.now centers.now × (e < length halfedges.now) × (i < length halfedges.now) × (i < length stage.old) }
    ensures { result ≡ true → EndsMeet b halfedges.now centers.now t i j e last f next stage.old stage.new }
{
    if i == j {
        return joined(halfedges, e, last, f, next);
    }
    match step_on(b, halfedges, centers, t, e, last) {
        Some(s) => {
            stage[i] = s.e / 3;
            joined(halfedges, s.e, s.place, f, next)
        }
        None => false,
    }
}

// The triangles of the walk from t, laid in the stage from both ends at once: two short ways through the half-edges in place of one long one, which would wait for each of them in turn.
fn stage_both(
    b: BoundingBox,
    halfedges: &[u32],
    centers: &[f64],
    t: u32,
    n: usize,
    first: Point,
    stage: &mut [u32],
) -> bool
    requires { Begun b halfedges.now centers.now t n first stage.old }
    ensures { result ≡ true → LapLaid b halfedges.now centers.now t n first stage.new }
{
    stage[0] = t / 3;
    let mut last = first;
    let mut next = first;
    let mut e = t;
    let mut f = t;
    let half = (n + 1) / 2;
    for i in 1..half {
        let Some(r) = step_both(b, halfedges, centers, t, e, last, f, next) else {
            return false;
        };
        e = r.e;
        last = r.last;
        f = r.f;
        next = r.next;
        stage[i] = e / 3;
        stage[n - i] = f / 3;
    }
    meet(
        b,
        halfedges,
        centers,
        t,
        half,
        n + 1 - half,
        e,
        last,
        f,
        next,
        stage,
    )
}

// The triangles of the walk from t, laid in the stage; yes only where it comes back after n of them, wholly in the box and with no place twice in a row.
fn stage_ring(
    b: BoundingBox,
    halfedges: &[u32],
    centers: &[f64],
    t: u32,
    n: usize,
    stage: &mut [u32],
) -> bool
    requires { (length halfedges.now < EMPTY) × (2 * (length halfedges.now / 3) ≤ length centers.now) × (n ≤ length stage.old) }
    ensures { result ≡ true → Laps b halfedges.now centers.now t n stage.new }
{
    if n < 3 {
        return false;
    }
    if halfedges.len() < n {
        return false;
    }
    if halfedges.len() % 3 != 0 {
        return false;
    }
    if halfedges.len() <= wide(t) {
        return false;
    }
    if on_hull(halfedges, wide(t)) {
        return false;
    }
    let first = point_at(centers, wide(t / 3));
    if !is_inside(b, first) {
        return false;
    }
    if !stage_both(b, halfedges, centers, t, n, first, stage) {
        return false;
    }
    let last = point_at(centers, wide(stage[n - 1]));
    !same_place(first, last)
}

// The first n entries of the stage, the other way round, from place `at` on.
fn put_back(stage: &[u32], n: usize, at: usize, indexes: &mut [u32])
    requires { (n ≤ length stage.now) × (at + n ≤ length indexes.old) }
    ensures { indexes.new ≡ turned_round at (at + n) (laid_to stage.now at n indexes.old) }
{
    for i in 0..n {
        indexes[at + i] = stage[n - 1 - i];
    }
}

// The piece of the site whose walk begins at t, and the pen after it, where it is its ring and that has n corners, at most 16.
pub fn copy_ring(
    b: BoundingBox,
    halfedges: &[u32],
    centers: &[f64],
    t: u32,
    n: usize,
    pen: Pen,
    indexes: &mut [u32],
) -> Option<Pen>
    requires { (length halfedges.now < EMPTY) × (2 * (length halfedges.now / 3) ≤ length centers.now) }
    ensures { MatchOption result (indexes.new ≡ indexes.old)
        (λ after. CopiedInto b halfedges.now t (page pen centers.now indexes.old) (page after centers.now indexes.new)) }
{
    let begin = pen.at;
    if 16 < n {
        return None;
    }
    if pen.ends.is_some() {
        return None;
    }
    if indexes.len() < n {
        return None;
    }
    if indexes.len() - n < begin {
        return None;
    }
    let mut stage = [0u32; 16];
    if !stage_ring(b, halfedges, centers, t, n, &mut stage) {
        return None;
    }
    put_back(&stage, n, begin, indexes);
    Some(Pen {
        at: begin + n,
        count: pen.count,
        ends: None,
    })
}
