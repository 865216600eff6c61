// The cells put in their places, one after the other in the order of the sites: those in regions are moved down, early ones are walked there. By the way the walks of all
// sites are counted: together they have as many steps as there are half-edges exactly where every fan is whole (rule 10).
ghost use Rattle.std.specs.Prelude.{◌≡◌, true, List, ◌≢◌, ℕ, ◌+◌, ◌-◌, ◌≤◌, ◌<◌, length, get_or};
ghost use Rattle.base.specs.common.Count.{occ};
ghost use Rattle.mesh.specs.Mesh.{next_of, around, whole_of, total_to};
ghost use Rattle.cell_memory.specs.layout.Regions.{joined, Compacted};
ghost use Rattle.cell_memory.specs.outputs.Outputs.{Gathered};
ghost use Rattle.cell_memory.specs.staging.Staging.{Staged};
ghost use Rattle.cell_builder.specs.placed.Placed.{back_of, InPair, meets_of, Mutual, BackCell, WalkedRound, WalkedCell, CellReady, CellOf, Placeable, CellsReady};

use crate::turned::marks::early;
use base::numbers::wide;
use cell_memory::layout::{cell_end, move_down};
use cell_memory::outputs::clear_after;
use mesh::{next_halfedge, walk_length};

// One step back round a site: the half-edge before the pair of e.
fn step_back(halfedges: &[u32], e: usize) -> usize
    requires { InPair halfedges.now e × (length halfedges.now ≤ 393216) }
    ensures { result ≡ back_of halfedges.now e }
{
    let p = wide(halfedges[e]);
    if p % 3 == 0 {
        return p + 2;
    }
    p - 1
}

// One step on round a site: the pair of the half-edge after e.
fn step_on(halfedges: &[u32], e: usize) -> usize
    requires { (next_of e < length halfedges.now) × (length halfedges.now ≤ 393216) }
    ensures { result ≡ around halfedges.now e }
{
    wide(halfedges[next_halfedge(e)])
}

// The triangles round the site where half-edge t ends, a step back each, from `at` on and not past `end`. Answers the place after them.
fn walk_back(halfedges: &[u32], indexes: &mut [u32], at: usize, end: usize, t: usize) -> usize
    requires { (at ≤ end) × (end ≤ length indexes.old) × (length halfedges.now ≤ 393216) × ((c : List ℕ) × BackCell halfedges.now t (end - at) c) }
    ensures { (c : List ℕ) → BackCell halfedges.now t (end - at) c → Staged c at indexes.old indexes.new result }
{
    indexes[at] = (t / 3) as u32;
    let mut e = step_back(halfedges, t);
    for n in at + 1..end {
        if e == t {
            return n;
        }
        indexes[n] = (e / 3) as u32;
        e = step_back(halfedges, e);
    }
    end
}

// Whether the walk's two ends meet: back at e and on at f they stand at one half-edge, or with one step between.
fn meets(halfedges: &[u32], e: usize, f: usize, apart: bool) -> bool
    requires { (apart ≡ true → InPair halfedges.now e) × (length halfedges.now ≤ 393216) }
    ensures { result ≡ meets_of halfedges.now e f apart }
{
    if apart {
        return step_back(halfedges, e) == f;
    }
    e == f
}

// The same where they are as many as there are places, which it tells: from both ends at once, forwards from the last place down. Two chains of reads are half as long
// as one; in the middle the two may write one triangle twice.
fn walk_round(halfedges: &[u32], indexes: &mut [u32], at: usize, end: usize, t: usize) -> bool
    requires { Mutual halfedges.now × (at ≤ end) × (end ≤ length indexes.old) × (length halfedges.now ≤ 393216)
        × ((c : List ℕ) × BackCell halfedges.now t (end - at) c) }
    ensures { (c : List ℕ) (b : BackCell halfedges.now t (end - at) c) → WalkedRound at end indexes.old indexes.new c (length b.along) result }
{
    indexes[at] = (t / 3) as u32;
    let mut n = at + 1;
    let mut m = end;
    let mut back = t;
    let mut on = t;
    while n < m {
        back = step_back(halfedges, back);
        if back == t {
            return false;
        }
        indexes[n] = (back / 3) as u32;
        on = step_on(halfedges, on);
        m -= 1;
        indexes[m] = (on / 3) as u32;
        n += 1;
    }
    meets(halfedges, back, on, n == m)
}

// The place after a cell, and how long the walk of its site is, or 0 where that is not known.
#[derive(Clone, Copy)]
struct PutCell {
    end: usize,
    steps: usize,
}

// The one or the other: only the site that owns three corners or more has more room than steps, if its fan is whole.
fn walk_cell(
    halfedges: &[u32],
    indexes: &mut [u32],
    at: usize,
    end: usize,
    t: usize,
    crowded: bool,
) -> PutCell
    requires { Mutual halfedges.now × (at ≤ end) × (end ≤ length indexes.old) × (length halfedges.now ≤ 393216)
        × ((c : List ℕ) × BackCell halfedges.now t (end - at) c) }
    ensures { (c : List ℕ) (b : BackCell halfedges.now t (end - at) c)
        → WalkedCell at end indexes.old indexes.new c (length b.along) crowded result.end result.steps }
{
    if crowded {
        let last = walk_back(halfedges, indexes, at, end, t);
        return PutCell {
            end: last,
            steps: last - at,
        };
    }
    if walk_round(halfedges, indexes, at, end, t) {
        return PutCell {
            end: end,
            steps: end - at,
        };
    }
    PutCell { end: end, steps: 0 }
}

// The cell of site s, whose region is from..to, put at `at`.
fn place_cell(
    halfedges: &[u32],
    table: &[u32],
    marks: &[u8; 16384],
    indexes: &mut [u32],
    at: usize,
    from: usize,
    to: usize,
    s: usize,
    crowd: usize,
) -> PutCell
    requires { CellReady halfedges.now table.now marks.now indexes.old at from to s }
    ensures { (at ≤ result.end) × (result.end ≤ at + (to - from)) × (result.steps ≤ length (whole_of halfedges.now (get_or table.now s 0)))
        × ((c : List ℕ) → CellOf halfedges.now table.now marks.now indexes.old from to s crowd c
        → Staged c at indexes.old indexes.new result.end) }
{
    if early(halfedges, table, marks, s) {
        let t = wide(table[s]);
        return walk_cell(halfedges, indexes, at, at + (to - from) / 3, t, s == crowd);
    }
    let end = cell_end(indexes, from, to);
    move_down(indexes, at, from, end);
    PutCell {
        end: at + (end - from),
        steps: walk_length(halfedges, table[s]),
    }
}

// The site that owns three corners or more, if there is one; else some owner.
fn crowd_of(owners: [u32; 4]) -> u32
    ensures { (s : ℕ) → s ≢ result → occ s owners ≤ 2 }
{
    if owners[0] == owners[1] {
        return owners[0];
    }
    owners[2]
}

// How many entries all cells have, and how long the walks of all sites are together, as far as that is known.
#[derive(Clone, Copy)]
pub struct PutCells {
    pub used: usize,
    pub steps: usize,
}

// All cells; the starts of their regions become their offsets.
fn place_cells(
    halfedges: &[u32],
    table: &[u32],
    marks: &[u8; 16384],
    indexes: &mut [u32],
    offsets: &mut [u32],
    sites: usize,
    owners: [u32; 4],
) -> PutCells
    requires { Placeable halfedges.now table.now marks.now indexes.old offsets.old sites }
    ensures { (result.used ≤ length indexes.old) × (result.steps ≤ total_to halfedges.now table.now sites)
        × ((cells : List (List ℕ)) → length cells ≡ sites
        → CellsReady halfedges.now table.now marks.now indexes.old offsets.old owners cells
        → Compacted indexes.old offsets.old cells indexes.new offsets.new result.used) }
{
    let crowd = wide(crowd_of(owners));
    let mut w: usize = 0;
    let mut steps: usize = 0;
    let mut from = wide(offsets[0]);
    for s in 0..sites {
        let to = wide(offsets[s + 1]);
        let p = place_cell(halfedges, table, marks, indexes, w, from, to, s, crowd);
        offsets[s] = w as u32;
        w = p.end;
        steps += p.steps;
        from = to;
    }
    offsets[sites] = w as u32;
    PutCells {
        used: w,
        steps: steps,
    }
}

// The same, and what is left over of both slices cleared.
pub fn gather(
    halfedges: &[u32],
    table: &[u32],
    marks: &[u8; 16384],
    indexes: &mut [u32],
    offsets: &mut [u32],
    sites: usize,
    owners: [u32; 4],
) -> PutCells
    requires { Placeable halfedges.now table.now marks.now indexes.old offsets.old sites }
    ensures { (result.used ≤ length indexes.old) × (result.steps ≤ total_to halfedges.now table.now sites)
        × ((cells : List (List ℕ)) → length cells ≡ sites
        → CellsReady halfedges.now table.now marks.now indexes.old offsets.old owners cells
        → (result.used ≡ length (joined cells)) × Gathered cells indexes.old offsets.old indexes.new offsets.new) }
{
    let p = place_cells(halfedges, table, marks, indexes, offsets, sites, owners);
    clear_after(indexes, offsets, p.used, sites);
    p
}
