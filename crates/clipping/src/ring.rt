// clip_cell: the ring walked reversed and cyclic from its first vertex inside, edge by edge.
ghost use Rattle.std.specs.Prelude.{◌≡◌, true, false, List, ℕ, ◌+◌, ◌*◌, ◌≤◌, ◌<◌, length, get_or};
ghost use Rattle.plane.specs.points.Flat.{points};
ghost use Rattle.definition.specs.Cell as Def;
ghost use Rattle.definition.specs.Short;
ghost use Rattle.clipping.specs.edges.EdgeClip.{CrossingsAsked};
ghost use Rattle.clipping.specs.EdgeOutcome.{EdgeRoom};
ghost use Rattle.clipping.specs.RingWalk.{tip_of, Stands, Steps, ring_of, empty_at, RingRoom};

use crate::corners::CellSoFar;
use crate::edges::{Env, crossing_of, together};
use crate::step::clip_step;
use crate::{RingStepped, Tip};
use base::numbers::EMPTY;
use definition::{Fault, Reused};
use plane::boxes::BoundingBox;
use plane::lines::Crossing;
use plane::sides::is_inside;
use vertices::vertex;

// Only circumcenters can be inside.
pub fn in_box(vertices: &[f64], count: usize, bounds: BoundingBox, centers: usize, i: u32) -> bool
    requires { (2 * count ≤ length vertices.now) × (i < count) }
    ensures { result ≡ Def.in_box bounds centers (points count vertices.now) i }
{
    let at = i as usize;
    if at < centers {
        return is_inside(bounds, vertex(vertices, count, at));
    }
    false
}

// Whether an edge passes the box by: both ends outside, and no crossing.
fn passes(p_in: bool, q_in: bool, c: Crossing) -> bool
    ensures { result ≡ true → (p_in ≡ false) × (q_in ≡ false) × (c ≡ Crossing.None) }
{
    if p_in {
        return false;
    }
    if q_in {
        return false;
    }
    match c {
        Crossing::None => true,
        Crossing::One(_, _) => false,
        Crossing::Two(_, _, _, _) => false,
    }
}

// The edge to the ring's vertex q.
fn step_to(
    vertices: &mut [f64],
    indexes: &mut [u32],
    env: Env,
    tip: Tip,
    q: u32,
    q_in: bool,
    c: Crossing,
) -> RingStepped
    requires edge_room { EdgeRoom env tip.count tip.cell vertices.old indexes.old }
    requires stands_2 { Stands env tip vertices.old × (tip.inside ≡ false → q_in ≡ true → tip.opened ≡ true) }
    requires q_lt_count { (q < tip.count) × (q_in ≡ Def.in_box env.bounds env.centers (points tip.count vertices.old) q)
        × CrossingsAsked env.bounds (points tip.count vertices.old) tip.vertex tip.inside q q_in c }
    ensures steps { Steps env 1 (Def.step_to env.bounds env.centers env.site (tip_of tip vertices.old) q) tip.count tip.cell
        vertices.old indexes.old result vertices.new indexes.new }
    ensures stands { result.fault.number ≡ 0 → Stands env result.tip vertices.new
        × (result.tip.inside ≡ false → result.tip.opened ≡ false → (tip.inside ≡ false) × (tip.opened ≡ false)) }
{
    let d = clip_step(vertices, indexes, env, tip, q_in, c);
    let reused = d.reused;
    if d.refusal != 0 {
        return RingStepped {
            fault: Fault {
                number: d.refusal,
                place: env.site,
                from: tip.vertex,
                to: q,
            },
            tip: tip,
            reused: reused,
        };
    }
    let cell = d.cell;
    RingStepped {
        fault: Fault {
            number: 0,
            place: 0,
            from: 0,
            to: 0,
        },
        tip: Tip {
            cell: cell,
            count: d.count,
            vertex: q,
            inside: q_in,
            opened: d.opened,
        },
        reused: reused,
    }
}

// The place of the ring's k-th vertex when it is walked reversed and cyclic from place f.
fn turned(f: usize, len: usize, k: usize) -> usize
    requires { (f ≤ len) × (k < len) }
    ensures upper_bound { result < len }
    ensures by_index { (ring : List ℕ) → length ring ≡ len → get_or (Def.turned f ring) k 0 ≡ get_or ring result 0 }
{
    if k < f {
        return f - 1 - k;
    }
    len - 1 - (k - f)
}

// The edges from the tip on, to the ring's vertices reversed and cyclic from place f. One that passes the box by moves the tip's vertex alone.
fn walk_ring(
    vertices: &mut [f64],
    indexes: &mut [u32],
    env: Env,
    tip: Tip,
    ring: usize,
    len: usize,
    f: usize,
) -> RingStepped
    requires ring_room { RingRoom env tip.count tip.cell ring len len vertices.old indexes.old }
    requires stands { Stands env tip vertices.old }
    requires f_le_len { (f ≤ len) × (tip.inside ≡ false → (j : ℕ) → j < len
        → Def.in_box env.bounds env.centers (points tip.count vertices.old) (get_or indexes.old (ring + j) 0) ≡ false) }
    ensures { Steps env len (Def.steps_to env.bounds env.centers env.site (Def.turned f (ring_of indexes.old ring len))
        (tip_of tip vertices.old)) tip.count tip.cell vertices.old indexes.old result vertices.new indexes.new }
{
    let bounds = env.bounds;
    let mut at = tip;
    let mut reused = Reused {
        extensions: 0,
        firsts: 0,
        seconds: 0,
    };
    for k in 0..len {
        let place = ring + turned(f, len, k);
        let q = indexes[place];
        let q_in = in_box(vertices, at.count, bounds, env.centers, q);
        let c = crossing_of(vertices, at.count, bounds, at.vertex, at.inside, q, q_in);
        if passes(at.inside, q_in, c) {
            at.vertex = q;
            continue;
        }
        let s = step_to(vertices, indexes, env, at, q, q_in, c);
        let fault = s.fault;
        if fault.number != 0 {
            return s;
        }
        let next = s.tip;
        at = next;
        let more = s.reused;
        reused = together(reused, more);
    }
    RingStepped {
        fault: Fault {
            number: 0,
            place: 0,
            from: 0,
            to: 0,
        },
        tip: at,
        reused: reused,
    }
}

// The place of the first vertex inside, else the ring's length.
fn first_inside(
    vertices: &[f64],
    indexes: &[u32],
    env: Env,
    count: usize,
    ring: usize,
    len: usize,
) -> usize
    requires { (2 * count ≤ length vertices.now) × (ring + len ≤ length indexes.now) × ((j : ℕ) → j < len → get_or indexes.now (ring + j) 0 < count) }
    ensures first { result ≡ Def.first_inside env.bounds env.centers (points count vertices.now) (ring_of indexes.now ring len) }
    ensures within { result ≤ len }
{
    let bounds = env.bounds;
    for k in 0..len {
        let at = ring + k;
        if in_box(vertices, count, bounds, env.centers, indexes[at]) {
            return k;
        }
    }
    len
}

// The ring's walk from its vertex at place f.
fn clip_from(
    vertices: &mut [f64],
    indexes: &mut [u32],
    env: Env,
    count: usize,
    cell: CellSoFar,
    ring: usize,
    len: usize,
    f: usize,
    inside: bool,
) -> RingStepped
    requires ring_room { RingRoom env count cell ring len len vertices.old indexes.old }
    requires f_lt_len { (f < len) × (inside ≡ false → (j : ℕ) → j < len → Def.in_box env.bounds env.centers (points count vertices.old) (get_or indexes.old (ring + j) 0) ≡ false) }
    ensures { Steps env len (Def.steps_to env.bounds env.centers env.site (Def.turned f (ring_of indexes.old ring len))
        (Short.tip (points count vertices.old) cell.owners cell.last (get_or (ring_of indexes.old ring len) f 0) inside false)) count cell
        vertices.old indexes.old result vertices.new indexes.new }
{
    let place = ring + f;
    let tip = Tip {
        cell: cell,
        count: count,
        vertex: indexes[place],
        inside: inside,
        opened: false,
    };
    walk_ring(vertices, indexes, env, tip, ring, len, f)
}

// Where the walk starts: at the first vertex inside, which is at place f, else at the first.
fn start_at(f: usize, len: usize) -> usize
    requires { 0 < len }
    ensures { (result < len) × (f < len → result ≡ f) × (len ≤ f → result ≡ 0) }
{
    if f < len {
        return f;
    }
    0
}

// The cell of the ring of `len` vertices at place `ring` of the index list, written from place `base` on.
pub fn clip_cell(
    vertices: &mut [f64],
    indexes: &mut [u32],
    env: Env,
    count: usize,
    owners: [u32; 4],
    base: usize,
    ring: usize,
    len: usize,
) -> RingStepped
    requires ring_room { RingRoom env count (empty_at owners base) ring len len vertices.old indexes.old }
    requires len_nonzero { 0 < len }
    ensures { Steps env len (Def.clip_cell env.bounds env.centers env.site (ring_of indexes.old ring len)
        (points count vertices.old) owners) count (empty_at owners base) vertices.old indexes.old result vertices.new indexes.new }
{
    let cell = CellSoFar {
        owners: owners,
        end: base,
        last: EMPTY,
    };
    let f = first_inside(vertices, indexes, env, count, ring, len);
    let start = start_at(f, len);
    clip_from(
        vertices,
        indexes,
        env,
        count,
        cell,
        ring,
        len,
        start,
        f < len,
    )
}
