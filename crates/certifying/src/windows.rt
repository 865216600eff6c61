// The window of a ring: four edges such that no corner of the ring is nearer to what stands at one of them or past it, whatever the tolerance (specs/windows/laws/LeftOut.antt). Where
// the edges are put is free, and a bad place costs time: nothing is promised of `window_of`. Its window is held against every corner (`is_window`) before it is used.
ghost use Rattle.std.specs.Prelude.{◌≡◌, true, ℕ, ◌/◌, ◌<◌, length, get_or};
ghost use Rattle.plane.specs.points.Flat.{point_at};
ghost use Rattle.arguments.specs.entries.Named.{EntriesNamed};
ghost use Rattle.audit_truth.specs.Held.{HeldWithin};
ghost use Rattle.certifying.specs.call.Verdict.{larger_of};
ghost use Rattle.certifying.specs.windows.Windows.{lesser_of, most_of, clear_of, kept_along, window_kept, off_of, EdgesHeld, WindowKeeps};

use base::numbers::wide;
use plane::points::{Point, coordinate_ok, point_at};

// Not plane's box: that has a center too, by which its edges are made.
#[derive(Clone, Copy)]
pub struct Window {
    pub left: f64,
    pub top: f64,
    pub right: f64,
    pub bottom: f64,
}

// The first of two that do not differ. By hand: std's min and max take the other number where one is a NaN, and either of 0 and -0.
pub fn lesser(x: f64, y: f64) -> f64
    ensures { result ≡ lesser_of x y }
{
    if y < x {
        return y;
    }
    x
}

pub fn greater(x: f64, y: f64) -> f64
    ensures { result ≡ larger_of x y }
{
    if x < y {
        return y;
    }
    x
}

// ---- where the edges are put
// A little more than the root of a * a + 2 * b * b.
fn reach(a: f64, b: f64) -> f64 {
    let c = b * 1.4143;
    greater(a, c) * 1.00001 + lesser(a, c) * 0.4143
}

// With the corner p of the piece of s.
fn opened(w: Window, s: Point, p: Point) -> Window {
    let x = root::magnitude(p.x - s.x);
    let y = root::magnitude(p.y - s.y);
    let across = reach(x, y);
    let down = reach(y, x);
    let left = lesser(w.left, p.x - across);
    let top = lesser(w.top, p.y - down);
    let right = greater(w.right, p.x + across);
    let bottom = greater(w.bottom, p.y + down);
    Window {
        left,
        top,
        right,
        bottom,
    }
}

// As far as the last bits of s may need.
fn eased(w: Window, s: Point) -> Window {
    let x = root::magnitude(s.x) * 0.00000000000001;
    let y = root::magnitude(s.y) * 0.00000000000001;
    Window {
        left: w.left - x,
        top: w.top - y,
        right: w.right + x,
        bottom: w.bottom + y,
    }
}

pub fn window_of(s: Point, vertices: &[f64], entries: &[u32]) -> Window
    requires { EntriesNamed entries.now (length vertices.now / 2) }
{
    let mut w = Window {
        left: s.x,
        top: s.y,
        right: s.x,
        bottom: s.y,
    };
    for e in entries {
        w = opened(w, s, point_at(vertices, wide(*e)));
    }
    eased(w, s)
}

// ---- whether they stand well
fn most_of(s: f64, l: f64, r: f64) -> f64
    ensures { result ≡ most_of s l r }
{
    let u = greater(r - s, s - l);
    (u + u) * u
}

fn is_clear(p: f64, q: f64, most: f64) -> bool
    ensures { result ≡ clear_of p q most }
{
    (p > 0.0) & (q > 0.0) & (most <= p * q)
}

// Along one axis.
fn is_kept_along(s: f64, v: f64, low: f64, high: f64, most: f64) -> bool
    ensures { result ≡ kept_along s v low high most }
{
    is_clear(high - s, (high - v) - (v - s), most) & is_clear(s - low, (v - low) - (s - v), most)
}

// Whether the window keeps what is nearer to the corner p of the piece of s.
fn is_kept(w: Window, s: Point, p: Point) -> bool
    ensures { result ≡ window_kept w s p }
{
    let down = most_of(s.y, p.y, p.y);
    let across = most_of(s.x, p.x, p.x);
    is_kept_along(s.x, p.x, w.left, w.right, down)
        & is_kept_along(s.y, p.y, w.top, w.bottom, across)
}

fn is_edge(x: f64) -> bool
    ensures { result ≡ true → HeldWithin 400 x }
{
    coordinate_ok(x)
}

fn has_edges(w: Window) -> bool
    ensures { result ≡ true → EdgesHeld w }
{
    is_edge(w.left) & is_edge(w.top) & is_edge(w.right) & is_edge(w.bottom)
}

// Of every corner.
fn all_kept(w: Window, s: Point, vertices: &[f64], entries: &[u32]) -> bool
    requires { EntriesNamed entries.now (length vertices.now / 2) }
    ensures { result ≡ true → (k : ℕ) → k < length entries.now → window_kept w s (point_at vertices.now (get_or entries.now k 0)) ≡ true }
{
    for e in entries {
        if !is_kept(w, s, point_at(vertices, wide(*e))) {
            return false;
        }
    }
    true
}

pub fn is_window(w: Window, s: Point, vertices: &[f64], entries: &[u32]) -> bool
    requires { EntriesNamed entries.now (length vertices.now / 2) }
    ensures { result ≡ true → WindowKeeps w s vertices.now entries.now }
{
    if has_edges(w) {
        return all_kept(w, s, vertices, entries);
    }
    false
}

// Whether what stands from l to r and from t to b is off the window.
pub fn is_off(w: Window, l: f64, t: f64, r: f64, b: f64) -> bool
    ensures { result ≡ off_of w l t r b }
{
    (w.right <= l) | (r <= w.left) | (w.bottom <= t) | (b <= w.top)
}
