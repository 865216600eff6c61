// One edge of the ring, from vertex p to vertex q: the four cases of clip_cell's loop.
ghost use Rattle.std.specs.Prelude.{◌≡◌, true, false, List, [], ◌∷◌, ℕ, ◌+◌, ◌*◌, ◌≤◌, ◌<◌, ◌^◌, length};
ghost use Rattle.base.specs.numbers.Numbers.{refused_one_crossing};
ghost use Rattle.plane.specs.points.Flat.{points};
ghost use Rattle.plane.specs.declared.points.Point.{Point};
ghost use Rattle.definition.specs.Fault.{ok};
ghost use Rattle.definition.specs.Cell as Def;
ghost use Rattle.definition.specs.Short;
ghost use Rattle.definition.specs.Reused.{CountsReused};
ghost use Rattle.definition.specs.Sides.{Sided};
ghost use Rattle.build_laws.specs.laws.SidedEdge.{ClipSided};
ghost use Rattle.clipping.specs.corners.CellEntries.{EntryRoom, EntriesPut};
ghost use Rattle.clipping.specs.edges.EdgeClip.{CrossingsAsked};
ghost use Rattle.clipping.specs.EdgeOutcome.{EdgeRoom, Alters, Changes};
ghost use Rattle.clipping.specs.RingWalk.{Stands};

use crate::corners::{CellSoFar, insert_edge, push};
use crate::edges::{Crossed, Env, add_crossings};
use crate::{Changed, Tip};
use definition::Reused;
use plane::lines::Crossing;

// Both inside: p goes in.
fn stay(
    indexes: &mut [u32],
    env: Env,
    count: usize,
    cell: CellSoFar,
    opened: bool,
    p: u32,
) -> Changed
    requires { (EntryRoom env.site 3 cell (length indexes.old)) × (p < count) }
    ensures { (vs : List Point) → Alters env.site vs
        (ok (Short.change vs cell.owners (Def.entry Def.plain p ∷ []) opened [])) count cell indexes.old result indexes.new }
{
    let put = push(indexes, cell, env.site, p);
    Changed {
        refusal: 0,
        count: count,
        opened: opened,
        cell: put,
        reused: Reused {
            extensions: 0,
            firsts: 0,
            seconds: 0,
        },
    }
}

// From inside to outside: p and the crossing go in, and the cell is open.
fn leave_at(
    indexes: &mut [u32],
    env: Env,
    count: usize,
    cell: CellSoFar,
    p: u32,
    first: u32,
    reused: Reused,
) -> Changed
    requires { (EntryRoom env.site 3 cell (length indexes.old)) × (first < count) }
    ensures { (vs : List Point) (ts : List Def.Taken) → CountsReused 2 ts reused
        → Alters env.site vs (ok (Short.change vs cell.owners (Def.entry Def.plain p ∷ Def.entry Def.crossing first ∷ []) true ts))
        count cell indexes.old result indexes.new }
{
    let one = push(indexes, cell, env.site, p);
    let two = push(indexes, one, env.site, first);
    Changed {
        refusal: 0,
        count: count,
        opened: true,
        cell: two,
        reused: reused,
    }
}

fn leave(
    vertices: &mut [f64],
    indexes: &mut [u32],
    env: Env,
    count: usize,
    cell: CellSoFar,
    p: u32,
    c: Crossing,
) -> Changed
    requires edge_room { EdgeRoom env count cell vertices.old indexes.old }
    requires clip_sided { ClipSided env.bounds env.centers env.site (Def.clip_with env.centers (points count vertices.old) c) }
    ensures { Changes env count (Def.leave p cell.owners (Def.clip_with env.centers (points count vertices.old) c))
        cell vertices.old indexes.old result vertices.new indexes.new }
{
    let clip = add_crossings(vertices, indexes, env, count, c);
    match clip {
        Crossed::Missed => Changed {
            refusal: base::numbers::REFUSED_NO_CROSSING,
            count: count,
            opened: false,
            cell: cell,
            reused: Reused {
                extensions: 0,
                firsts: 0,
                seconds: 0,
            },
        },
        Crossed::Once(first, n, reused) => leave_at(indexes, env, n, cell, p, first, reused),
        Crossed::Twice(first, _, n, reused) => leave_at(indexes, env, n, cell, p, first, reused),
    }
}

// From outside to inside: from the cell's last entry to the crossing.
fn enter_at(
    vertices: &[f64],
    indexes: &mut [u32],
    env: Env,
    count: usize,
    cell: CellSoFar,
    first: u32,
    reused: Reused,
) -> Changed
    requires entry_room { EntryRoom env.site 3 cell (length indexes.old) }
    requires count_in_bounds { (2 * count ≤ length vertices.now) × (first < count) × (cell.last < count) × (env.centers + 4 ≤ count) × (count ≤ 2 ^ 32) }
    requires sided { Sided env.bounds (points count vertices.now) cell.last × Sided env.bounds (points count vertices.now) first }
    ensures { (ts : List Def.Taken) → CountsReused 2 ts reused → Alters env.site (points count vertices.now)
        (ok (Def.enter_at env.bounds env.centers env.site (points count vertices.now) cell.owners cell.last first ts))
        count cell indexes.old result indexes.new }
{
    let done = insert_edge(
        vertices,
        indexes,
        env.bounds,
        env.centers,
        env.site,
        count,
        cell,
        cell.last,
        first,
    );
    Changed {
        refusal: 0,
        count: count,
        opened: false,
        cell: done,
        reused: reused,
    }
}

fn enter(
    vertices: &mut [f64],
    indexes: &mut [u32],
    env: Env,
    count: usize,
    cell: CellSoFar,
    c: Crossing,
) -> Changed
    requires edge_room { EdgeRoom env count cell vertices.old indexes.old }
    requires clip_sided { ClipSided env.bounds env.centers env.site (Def.clip_with env.centers (points count vertices.old) c) }
    requires last_lt_count { (cell.last < count) × Sided env.bounds (points count vertices.old) cell.last }
    ensures { Changes env count (Def.enter env.bounds env.centers env.site cell.owners cell.last
        (Def.clip_with env.centers (points count vertices.old) c)) cell vertices.old indexes.old result vertices.new indexes.new }
{
    let clip = add_crossings(vertices, indexes, env, count, c);
    match clip {
        Crossed::Missed => Changed {
            refusal: base::numbers::REFUSED_NO_CROSSING,
            count: count,
            opened: false,
            cell: cell,
            reused: Reused {
                extensions: 0,
                firsts: 0,
                seconds: 0,
            },
        },
        Crossed::Once(first, n, reused) => enter_at(vertices, indexes, env, n, cell, first, reused),
        Crossed::Twice(first, _, n, reused) => enter_at(
            vertices, indexes, env, n, cell, first, reused,
        ),
    }
}

// An open cell is led from its last entry to the first crossing.
fn link(
    vertices: &[f64],
    indexes: &mut [u32],
    env: Env,
    count: usize,
    cell: CellSoFar,
    opened: bool,
    first: u32,
) -> CellSoFar
    requires entry_room { EntryRoom env.site 3 cell (length indexes.old) }
    requires count_in_bounds { (2 * count ≤ length vertices.now) × (first < count) × (opened ≡ true → cell.last < count) × (env.centers + 4 ≤ count) × (count ≤ 2 ^ 32) }
    requires sided { (opened ≡ true → Sided env.bounds (points count vertices.now) cell.last) × Sided env.bounds (points count vertices.now) first }
    ensures { EntriesPut env.site 1 (Short.link env.bounds env.centers env.site (points count vertices.now) cell.owners opened
        cell.last first) cell indexes.old result indexes.new }
{
    if opened {
        return insert_edge(
            vertices,
            indexes,
            env.bounds,
            env.centers,
            env.site,
            count,
            cell,
            cell.last,
            first,
        );
    }
    cell
}

// Both outside and a lone crossing: refused, but an open cell is led to it first.
fn cross_once(
    vertices: &[f64],
    indexes: &mut [u32],
    env: Env,
    count: usize,
    cell: CellSoFar,
    opened: bool,
    first: u32,
    reused: Reused,
) -> Changed
    requires entry_room { EntryRoom env.site 3 cell (length indexes.old) }
    requires count_in_bounds { (2 * count ≤ length vertices.now) × (first < count) × (opened ≡ true → cell.last < count) × (env.centers + 4 ≤ count) × (count ≤ 2 ^ 32) }
    requires sided { (opened ≡ true → Sided env.bounds (points count vertices.now) cell.last) × Sided env.bounds (points count vertices.now) first }
    ensures { result.refusal ≡ refused_one_crossing }
{
    let done = link(vertices, indexes, env, count, cell, opened, first);
    Changed {
        refusal: base::numbers::REFUSED_ONE_CROSSING,
        count: count,
        opened: opened,
        cell: done,
        reused: reused,
    }
}

// Both outside and two crossings: from the one to the other, after an open cell was led to the first.
fn cross_at(
    vertices: &[f64],
    indexes: &mut [u32],
    env: Env,
    count: usize,
    cell: CellSoFar,
    opened: bool,
    first: u32,
    second: u32,
    reused: Reused,
) -> Changed
    requires entry_room { EntryRoom env.site 3 cell (length indexes.old) }
    requires count_in_bounds { (2 * count ≤ length vertices.now) × (first < count) × (second < count) × (opened ≡ true → cell.last < count) × (env.centers + 4 ≤ count) × (count ≤ 2 ^ 32) }
    requires sided { (opened ≡ true → Sided env.bounds (points count vertices.now) cell.last)
        × Sided env.bounds (points count vertices.now) first × Sided env.bounds (points count vertices.now) second }
    ensures { (ts : List Def.Taken) → CountsReused 2 ts reused → Alters env.site (points count vertices.now)
        (ok (Def.cross_at env.bounds env.centers env.site (points count vertices.now) cell.owners opened
        cell.last first second ts)) count cell indexes.old result indexes.new }
{
    let led = link(vertices, indexes, env, count, cell, opened, first);
    let done = insert_edge(
        vertices,
        indexes,
        env.bounds,
        env.centers,
        env.site,
        count,
        led,
        first,
        second,
    );
    Changed {
        refusal: 0,
        count: count,
        opened: opened,
        cell: done,
        reused: reused,
    }
}

fn cross(
    vertices: &mut [f64],
    indexes: &mut [u32],
    env: Env,
    count: usize,
    cell: CellSoFar,
    opened: bool,
    c: Crossing,
) -> Changed
    requires edge_room { EdgeRoom env count cell vertices.old indexes.old }
    requires clip_sided { ClipSided env.bounds env.centers env.site (Def.clip_with env.centers (points count vertices.old) c) }
    requires last_lt_count { (opened ≡ true → cell.last < count) × (opened ≡ true → Sided env.bounds (points count vertices.old) cell.last) }
    ensures { Changes env count (Def.cross env.bounds env.centers env.site (points count vertices.old) cell.owners opened
        cell.last (Def.clip_with env.centers (points count vertices.old) c)) cell vertices.old
        indexes.old result vertices.new indexes.new }
{
    let clip = add_crossings(vertices, indexes, env, count, c);
    match clip {
        Crossed::Missed => Changed {
            refusal: 0,
            count: count,
            opened: opened,
            cell: cell,
            reused: Reused {
                extensions: 0,
                firsts: 0,
                seconds: 0,
            },
        },
        Crossed::Once(first, n, reused) => cross_once(
            vertices, indexes, env, n, cell, opened, first, reused,
        ),
        Crossed::Twice(first, second, n, reused) => cross_at(
            vertices, indexes, env, n, cell, opened, first, second, reused,
        ),
    }
}

// The four cases: whether the walk's vertex and the ring's next one are inside; c is what `crossing_of` says of the edge between them.
pub fn clip_step(
    vertices: &mut [f64],
    indexes: &mut [u32],
    env: Env,
    tip: Tip,
    q_in: bool,
    c: Crossing,
) -> Changed
    requires edge_room { EdgeRoom env tip.count tip.cell vertices.old indexes.old }
    requires stands { Stands env tip vertices.old × (tip.inside ≡ false → q_in ≡ true → tip.opened ≡ true) }
    requires by_index { (q : ℕ) × CrossingsAsked env.bounds (points tip.count vertices.old) tip.vertex tip.inside q q_in c }
    ensures { (q : ℕ) → CrossingsAsked env.bounds (points tip.count vertices.old) tip.vertex tip.inside q q_in c
        → Changes env tip.count (Def.clip_step env.bounds env.centers env.site tip.vertex tip.inside q q_in
        (points tip.count vertices.old) tip.cell.owners tip.opened tip.cell.last) tip.cell
        vertices.old indexes.old result vertices.new indexes.new }
{
    let cell = tip.cell;
    let count = tip.count;
    if tip.inside {
        if q_in {
            return stay(indexes, env, count, cell, tip.opened, tip.vertex);
        }
        return leave(vertices, indexes, env, count, cell, tip.vertex, c);
    }
    if q_in {
        return enter(vertices, indexes, env, count, cell, c);
    }
    cross(vertices, indexes, env, count, cell, tip.opened, c)
}
