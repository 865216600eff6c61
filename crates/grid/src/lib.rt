// Places of whole coordinates, each of magnitude at most 8,192: which way three of them turn, and whether a fourth lies inside their circle. Signs are
// avoided: coordinates are moved up by 8,192, and a number with a sign is what is added and what is taken off. No sum or product reaches 2^61.

#![tactic(auto)]

pub mod border;
pub mod check;
pub mod floats;
pub mod nearest;
pub mod scan;

ghost use Rattle.std.specs.Prelude.{◌≡◌, ◌+◌, ◌*◌, ◌/◌, ◌<◌, ◌≤◌, length, get_or, pos};
ghost use Rattle.base.specs.common.Decide.{Says, First};
ghost use Rattle.grid.specs.Plane.{Within, place_at, WithinAt, SiteAt, turns_left, goes_up, strictly_inside};
ghost use Rattle.grid.specs.Raised.{up, raised_of, area_of, lift_of, level_of, Low, Small};

// A place moved up by 8,192 in both coordinates, and its height x² + y².
#[derive(Clone, Copy)]
pub struct Raised {
    pub x: u64,
    pub y: u64,
    pub z: u64,
}

// A number with a sign: what is added, and what is taken off.
#[derive(Clone, Copy)]
pub struct Signed {
    pub plus: u64,
    pub minus: u64,
}

// Rule 22 of one coordinate. Its magnitude is never taken: the least number has none.
fn within(v: i32) -> bool
    ensures { Says result (Within v) }
{
    if v < -8192 {
        return false;
    }
    if 8192 < v {
        return false;
    }
    true
}

// Coordinate i.
pub fn coordinate(grid: &[i32], i: usize) -> i32
    requires { i < length grid.now }
    ensures { result ≡ get_or grid.now i (pos 0) }
{
    grid[i]
}

// Rule 22 of site s.
fn site_within(grid: &[i32], s: usize) -> bool
    requires { 2 * s + 1 < length grid.now }
    ensures { Says result (WithinAt grid.now s) }
{
    within(coordinate(grid, 2 * s)) & within(coordinate(grid, 2 * s + 1))
}

// Rule 22 over the coordinates of all sites: the lowest site that breaks it, or their number.
pub fn first_beyond(grid: &[i32]) -> usize
    ensures { First (WithinAt grid.now) (length grid.now / 2) result }
{
    let count = grid.len() / 2;
    for i in 0..count {
        if !site_within(grid, i) {
            return i;
        }
    }
    count
}

// A coordinate moved up.
fn raise(v: i32) -> u64
    requires { Within v }
    ensures { (result ≡ up v) × (result ≤ 16384) }
{
    (v + 8192) as u64
}

// Site s moved up.
fn raise_site(grid: &[i32], s: usize) -> Raised
    requires { SiteAt grid.now s }
    ensures { (result ≡ raised_of (place_at grid.now s)) × Low result }
{
    let x = raise(coordinate(grid, 2 * s));
    let y = raise(coordinate(grid, 2 * s + 1));
    Raised {
        x: x,
        y: y,
        z: x * x + y * y,
    }
}

// Three products of coordinates that were moved up.
fn three(a: u64, b: u64, c: u64, d: u64, e: u64, f: u64) -> u64
    requires { (a ≤ 16384) × (b ≤ 16384) × (c ≤ 16384) × (d ≤ 16384) × (e ≤ 16384) × (f ≤ 16384) }
    ensures { (result ≡ a * b + c * d + e * f) × (result ≤ 805306368) }
{
    a * b + c * d + e * f
}

// Twice the area of three places.
fn area(a: Raised, b: Raised, c: Raised) -> Signed
    requires { Low a × Low b × Low c }
    ensures { (result ≡ area_of a b c) × Small result }
{
    let plus = three(a.y, b.x, b.y, c.x, c.y, a.x);
    let minus = three(a.x, b.y, b.x, c.y, c.x, a.y);
    Signed {
        plus: plus,
        minus: minus,
    }
}

// Four products of a height and an area.
fn four(a: u64, b: u64, c: u64, d: u64, e: u64, f: u64, g: u64, h: u64) -> u64
    requires { (a ≤ 536870912) × (b ≤ 805306368) × (c ≤ 536870912) × (d ≤ 805306368) × (e ≤ 536870912) × (f ≤ 805306368)
        × (g ≤ 536870912) × (h ≤ 805306368) }
    ensures { result ≡ a * b + c * d + e * f + g * h }
{
    a * b + c * d + e * f + g * h
}

// The determinant of four places with their heights.
fn lift(a: Raised, b: Raised, c: Raised, d: Raised) -> Signed
    requires { Low a × Low b × Low c × Low d }
    ensures { result ≡ lift_of a b c d }
{
    let p = area(b, c, d);
    let q = area(c, a, d);
    let s = area(a, b, d);
    let t = area(a, b, c);
    let plus = four(a.z, p.plus, b.z, q.plus, c.z, s.plus, d.z, t.minus);
    let minus = four(a.z, p.minus, b.z, q.minus, c.z, s.minus, d.z, t.plus);
    Signed {
        plus: plus,
        minus: minus,
    }
}

// Sites a, b, c turn counter-clockwise with Y downward; three on a line do not.
pub fn turns_left(grid: &[i32], a: usize, b: usize, c: usize) -> bool
    requires { SiteAt grid.now a × SiteAt grid.now b × SiteAt grid.now c }
    ensures { result ≡ turns_left (place_at grid.now a) (place_at grid.now b) (place_at grid.now c) }
{
    let twice = area(
        raise_site(grid, a),
        raise_site(grid, b),
        raise_site(grid, c),
    );
    twice.minus < twice.plus
}

// A number that grows along an edge that goes up: below 2^30.
fn level(a: Raised) -> u64
    requires { Low a }
    ensures { result ≡ level_of a }
{
    32768 * a.y + a.x
}

// The edge from site a to site b goes up.
pub fn goes_up(grid: &[i32], a: usize, b: usize) -> bool
    requires { SiteAt grid.now a × SiteAt grid.now b }
    ensures { result ≡ goes_up (place_at grid.now a) (place_at grid.now b) }
{
    level(raise_site(grid, a)) < level(raise_site(grid, b))
}

// Site d is strictly inside the circle through sites a, b, c, where these turn left; a site on the circle is not.
pub fn strictly_inside(grid: &[i32], a: usize, b: usize, c: usize, d: usize) -> bool
    requires { SiteAt grid.now a × SiteAt grid.now b × SiteAt grid.now c × SiteAt grid.now d }
    ensures { result ≡ strictly_inside (place_at grid.now a) (place_at grid.now b) (place_at grid.now c) (place_at grid.now d) }
{
    let determinant = lift(
        raise_site(grid, a),
        raise_site(grid, b),
        raise_site(grid, c),
        raise_site(grid, d),
    );
    determinant.minus < determinant.plus
}
