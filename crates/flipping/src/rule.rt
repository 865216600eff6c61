// Rule 23: whether a half-edge may be flipped, and whether the lent table is the leftmost table.
ghost use Rattle.std.specs.Prelude.{◌≡◌, ◌%◌, ◌<◌, ◌≤◌, length, take};
ghost use Rattle.base.specs.common.Decide.{Says};
ghost use Rattle.base.specs.numbers.Numbers.{EMPTY};
ghost use Rattle.flipping.specs.Flip.{opposite_of, JoinsAt, SitesJoined, Flippable};
ghost use Rattle.flipping.specs.rule.Asked.{FlipAsked};

use crate::before;
use base::numbers::{EMPTY, wide};

// Whether a half-edge from s to t runs from x to y.
fn runs(s: u32, t: u32, x: u32, y: u32) -> bool
    ensures { Says result ((s ≡ x) × (t ≡ y)) }
{
    if s != x {
        return false;
    }
    t == y
}

// Whether half-edge e runs between sites x and y, in either direction.
fn joins(triangles: &[u32], e: usize, x: u32, y: u32) -> bool
    requires { (length triangles.now % 3 ≡ 0) × (e < length triangles.now) }
    ensures { Says result (JoinsAt triangles.now x y e) }
{
    let s = triangles[e];
    let t = mesh::end_site(triangles, e);
    if runs(s, t, x, y) {
        return true;
    }
    runs(s, t, y, x)
}

// Whether a half-edge joins sites x and y.
fn joined(triangles: &[u32], x: u32, y: u32) -> bool
    requires { length triangles.now % 3 ≡ 0 }
    ensures { Says result (SitesJoined triangles.now x y) }
{
    (0..triangles.len()).any(|e| joins(triangles, e, x, y))
}

// Whether two lists begin with the same n entries.
fn same_first(table: &[u32], work: &[u32], n: usize) -> bool
    requires { (n ≤ length table.now) × (n ≤ length work.now) }
    ensures { Says result (take n table.now ≡ take n work.now) }
{
    table[..n] == work[..n]
}

// The site opposite half-edge e.
fn opposite(triangles: &[u32], e: usize) -> u32
    requires { (length triangles.now % 3 ≡ 0) × (length triangles.now < EMPTY) × (e < length triangles.now) }
    ensures { result ≡ opposite_of triangles.now e }
{
    let o = before(e);
    triangles[o]
}

// Rule 23, where rules 7 to 10 hold and the work slice begins with the leftmost table.
pub fn may_flip(
    triangles: &[u32],
    halfedges: &[u32],
    table: &[u32],
    work: &[u32],
    sites: usize,
    a: usize,
) -> bool
    requires { FlipAsked triangles.now halfedges.now table.now work.now sites }
    ensures { Says result (Flippable triangles.now halfedges.now sites table.now a) }
{
    if halfedges.len() <= a {
        return false;
    }
    if halfedges[a] == EMPTY {
        return false;
    }
    let b = wide(halfedges[a]);
    let x = opposite(triangles, a);
    let y = opposite(triangles, b);
    if x == y {
        return false;
    }
    if joined(triangles, x, y) {
        return false;
    }
    same_first(table, work, sites)
}
