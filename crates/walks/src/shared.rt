// What two cells share, and what two triangles share: the tests of utils.rs on lent slices.
ghost use Rattle.std.specs.Prelude.{◌≡◌, ◌+◌, ◌%◌, ◌<◌, ◌≤◌, length};
ghost use Rattle.base.specs.numbers.Numbers.{EMPTY};
ghost use Rattle.base.specs.common.Decide.{Says};
ghost use Rattle.walks.specs.shared.Cells.{Cells, cell_of, holds_of, shared_of, share_edge_of};
ghost use Rattle.walks.specs.shared.laws.Offsets.{RisingTo};
ghost use Rattle.walks.specs.shared.Edge.{names_of, first_of, shared_edge_of};

use base::numbers::EMPTY;

// Whether no entry is less than the one before it. It does not stop at one that is, so that the machine compares several at a time.
fn rising(b: &[u32]) -> bool
    ensures { Says result (RisingTo b.now (length b.now)) }
{
    let mut fell = false;
    for i in 1..b.len() {
        fell = fell | (b[i] < b[i - 1]);
    }
    !fell
}

// Whether the offsets cut a list of `room` entries into cells. They are read in parts of 16, each with the first of the next, no further than a part that falls; the
// last part reaches to the end, and back over some that were read.
pub fn check_cells(offsets: &[u32], room: usize) -> bool
    ensures { Says result (Cells offsets.now room) }
{
    if offsets.len() == 0 {
        return false;
    }
    if offsets[0] != 0 {
        return false;
    }
    let last = offsets.len().saturating_sub(17);
    for at in (0..last).step_by(16) {
        if !rising(&offsets[at..at + 17]) {
            return false;
        }
    }
    if !rising(&offsets[last..]) {
        return false;
    }
    base::numbers::wide(offsets[offsets.len() - 1]) <= room
}

// The cell of site s.
pub fn cell<'a>(offsets: &[u32], indexes: &'a [u32], s: usize) -> &'a [u32]
    requires { Cells offsets.now (length indexes.now) × (s + 1 < length offsets.now) }
    ensures { result.now ≡ cell_of offsets.now indexes.now s }
{
    let from = base::numbers::wide(offsets[s]);
    let to = base::numbers::wide(offsets[s + 1]);
    &indexes[from..to]
}

// Whether x stands in the list.
pub fn holds(b: &[u32], x: u32) -> bool
    ensures { result ≡ holds_of b.now x }
{
    b.contains(&x)
}

// The same for a list of a few entries, where the library's wide search costs more than it saves; of its searches that stop `position` is the shortest loop.
fn few_hold(b: &[u32], x: u32) -> bool
    ensures { result ≡ holds_of b.now x }
{
    b.iter().position(|y| *y == x).is_some()
}

// How many entries of a stand in b, repeats counted.
pub fn shared_entries(a: &[u32], b: &[u32]) -> usize
    ensures { result ≡ shared_of a.now b.now }
{
    if b.len() <= 10 {
        return a.iter().filter(|x| few_hold(b, **x)).count();
    }
    a.iter().filter(|x| holds(b, **x)).count()
}

// Whether the cells of sites s and t share an edge.
pub fn share_edge(offsets: &[u32], indexes: &[u32], s: usize, t: usize) -> bool
    requires { Cells offsets.now (length indexes.now) × (s + 1 < length offsets.now) × (t + 1 < length offsets.now) }
    ensures { result ≡ share_edge_of offsets.now indexes.now s t }
{
    shared_entries(cell(offsets, indexes, s), cell(offsets, indexes, t)) >= 2
}

// Whether a half-edge of the triangle whose first is f names e.
fn names(halfedges: &[u32], f: usize, e: u32) -> bool
    requires { f + 2 < length halfedges.now }
    ensures { result ≡ names_of halfedges.now f e }
{
    (halfedges[f] == e) | (halfedges[f + 1] == e) | (halfedges[f + 2] == e)
}

// The first of e, e + 1, e + 2 whose test holds, or `EMPTY`.
fn first_of(e: u32, zero: bool, one: bool, two: bool) -> u32
    requires { e + 2 < 4294967296 }
    ensures { result ≡ first_of e zero one two }
{
    if zero {
        return e;
    }
    if one {
        return e + 1;
    }
    if two {
        return e + 2;
    }
    EMPTY
}

// The half-edge of triangle a on the edge that it shares with triangle b, or `EMPTY`.
pub fn shared_edge(halfedges: &[u32], a: u32, b: u32) -> u32
    requires { (length halfedges.now % 3 ≡ 0) × (length halfedges.now ≤ EMPTY) }
    ensures { result ≡ shared_edge_of halfedges.now a b }
{
    if halfedges.len() <= 3 * base::numbers::wide(a) {
        return EMPTY;
    }
    let f = 3 * base::numbers::wide(b);
    if halfedges.len() <= f {
        return EMPTY;
    }
    let e = 3 * a;
    first_of(
        e,
        names(halfedges, f, e),
        names(halfedges, f, e + 1),
        names(halfedges, f, e + 2),
    )
}
