// insert_edge_and_wrap_around_corners: an edge along the box put into the cell, with the corners that are the site's.
ghost use Rattle.std.specs.Prelude.{◌≡◌, ℕ, ◌+◌, ◌*◌, ◌≤◌, ◌<◌, ◌^◌, eqb, length, get_or, [], ◌∷◌};
ghost use Rattle.plane.specs.points.Flat.{points};
ghost use Rattle.plane.specs.sides.Sides.{which_of};
ghost use Rattle.base.specs.numbers.Numbers.{EMPTY};
ghost use Rattle.definition.specs.Cell as Def;
ghost use Rattle.definition.specs.Short;
ghost use Rattle.definition.specs.Sides.{Sided};
ghost use Rattle.clipping.specs.corners.CellEntries.{EntryRoom, EntriesPut, places};

use base::numbers::EMPTY;
use plane::boxes::BoundingBox;
use plane::sides::which_edge;
use vertices::vertex;

// A cell as far as it is written: the owners left, the place after its last entry, and that entry, EMPTY where there is none.
#[derive(Clone, Copy)]
pub struct CellSoFar {
    pub owners: [u32; 4],
    pub end: usize,
    pub last: u32,
}

// Whether corner c is next: it is not the last side's, and the site owns it.
fn goes(owners: [u32; 4], site: u32, stop: usize, c: usize) -> bool
    requires { c < 4 }
    ensures { result ≡ Def.goes site stop c owners }
{
    if c == stop {
        return false;
    }
    owners[c] == site
}

// The corners from `edge` on, counter-clockwise, as long as they are the site's; each is struck out.
fn wrap(
    indexes: &mut [u32],
    cell: CellSoFar,
    centers: usize,
    site: u32,
    stop: usize,
    edge: usize,
) -> CellSoFar
    requires entry_room { EntryRoom site 0 cell (length indexes.old) }
    requires edge_bound { (edge < 4) × (centers + 4 ≤ 2 ^ 32) }
    ensures puts { EntriesPut site 0 (Def.wraps 4 centers site stop edge cell.owners) cell indexes.old result indexes.new }
    ensures low { (n : ℕ) → centers + 4 ≤ n → cell.last < n → result.last < n }
{
    let mut owners = cell.owners;
    let mut end = cell.end;
    let mut last = cell.last;
    let mut c = edge;
    while goes(owners, site, stop, c) {
        last = (centers + c) as u32;
        indexes[end] = last;
        owners[c] = EMPTY;
        end += 1;
        c = (c + 1) % 4;
    }
    CellSoFar {
        owners: owners,
        end: end,
        last: last,
    }
}

// One more entry.
pub fn push(indexes: &mut [u32], cell: CellSoFar, site: u32, x: u32) -> CellSoFar
    requires { EntryRoom site 1 cell (length indexes.old) }
    ensures entries_put { (m : Def.Mark) → EntriesPut site 1 (Short.ins cell.owners (Def.entry m x ∷ [])) cell indexes.old result indexes.new }
    ensures last_value { result.last ≡ x }
{
    let owners = cell.owners;
    let end = cell.end;
    indexes[end] = x;
    CellSoFar {
        owners: owners,
        end: end + 1,
        last: x,
    }
}

fn owns(owners: [u32; 4], c: usize, site: u32) -> bool
    requires { c < 4 }
    ensures { result ≡ eqb (get_or owners c EMPTY) site }
{
    owners[c] == site
}

// The second clipped vertex, with the corners before it or after it; the clipped vertices are on the sides f and s.
fn around_corners(
    indexes: &mut [u32],
    cell: CellSoFar,
    centers: usize,
    site: u32,
    f: usize,
    s: usize,
    second: u32,
) -> CellSoFar
    requires entry_room { EntryRoom site 1 cell (length indexes.old) }
    requires f_bound { (f < 4) × (s < 4) × (centers + 4 ≤ 2 ^ 32) }
    ensures puts { EntriesPut site 1 (Def.with_corners centers site f s second cell.owners) cell indexes.old result indexes.new }
    ensures low { (n : ℕ) → centers + 4 ≤ n → second < n → result.last < n }
{
    let owners = cell.owners;
    if owns(owners, f, site) {
        let w = wrap(indexes, cell, centers, site, s, f);
        return push(indexes, w, site, second);
    }
    let p = push(indexes, cell, site, second);
    if owns(owners, s, site) {
        return wrap(indexes, p, centers, site, f, s);
    }
    p
}

// The first clipped vertex too, unless it is the last entry already.
fn insert_sides(
    indexes: &mut [u32],
    cell: CellSoFar,
    centers: usize,
    site: u32,
    f: usize,
    s: usize,
    first: u32,
    second: u32,
) -> CellSoFar
    requires entry_room { EntryRoom site 2 cell (length indexes.old) }
    requires f_bound { (f < 4) × (s < 4) × (centers + 4 ≤ 2 ^ 32) }
    ensures puts { EntriesPut site (places (eqb cell.last first))
        (Def.led (eqb cell.last first) first (Def.with_corners centers site f s second cell.owners)) cell indexes.old result indexes.new }
    ensures low { (n : ℕ) → centers + 4 ≤ n → second < n → result.last < n }
{
    if cell.last == first {
        return around_corners(indexes, cell, centers, site, f, s, second);
    }
    let p = push(indexes, cell, site, first);
    around_corners(indexes, p, centers, site, f, s, second)
}

// The side that vertex i is on, 4 for none.
fn side_of(vertices: &[f64], count: usize, bounds: BoundingBox, i: u32) -> usize
    requires { (2 * count ≤ length vertices.now) × (i < count) }
    ensures { result ≡ which_of bounds (Def.vertex_at (points count vertices.now) i) }
{
    which_edge(bounds, vertex(vertices, count, i as usize)) as usize
}

// An edge along the box from the vertex `first` to the vertex `second`, each on a side.
pub fn insert_edge(
    vertices: &[f64],
    indexes: &mut [u32],
    bounds: BoundingBox,
    centers: usize,
    site: u32,
    count: usize,
    cell: CellSoFar,
    first: u32,
    second: u32,
) -> CellSoFar
    requires entry_room { EntryRoom site 2 cell (length indexes.old) }
    requires count_in_bounds { (2 * count ≤ length vertices.now) × (first < count) × (second < count) × (centers + 4 ≤ count) × (count ≤ 2 ^ 32) }
    requires sided { Sided bounds (points count vertices.now) first × Sided bounds (points count vertices.now) second }
    ensures inserts { EntriesPut site (places (eqb cell.last first))
        (Def.insert_edge bounds centers site (points count vertices.now) cell.owners cell.last first second) cell indexes.old result indexes.new }
    ensures low { result.last < count }
{
    let f = side_of(vertices, count, bounds, first);
    let s = side_of(vertices, count, bounds, second);
    insert_sides(indexes, cell, centers, site, f, s, first, second)
}
