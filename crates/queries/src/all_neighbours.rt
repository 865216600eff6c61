// The lists of all sites' neighbours, on slices: each is written behind the one before it, and where each begins. Callers see to it that the mesh and the cells are right and that there is room.
ghost use Rattle.std.specs.Prelude.{◌≡◌, ◌+◌, ◌≤◌, ◌<◌, length};
ghost use Rattle.base.specs.numbers.Numbers.{EMPTY};
ghost use Rattle.walks.specs.neighbours.Fills.{Fills};
ghost use Rattle.queries.specs.all_neighbours.Lists.{nothing_lent, list_from, list_of, lists_to};
ghost use Rattle.queries.specs.all_neighbours.Steps.{Listable, ListsFit, Appended, WrittenLists, MadeLists};

use base::numbers::EMPTY;
use cell_memory::layout::fill_from;
use mesh::Walked;

// Whether no cells are lent, by the lengths of their lists.
pub fn nothing_lent(offsets: usize, indexes: usize) -> bool
    ensures { result ≡ nothing_lent offsets indexes }
{
    if offsets != 0 {
        return false;
    }
    indexes == 0
}

// The neighbours of site s, whose leftmost half-edge is `start`, up to the slice's length.
fn list_from(
    triangles: &[u32],
    halfedges: &[u32],
    offsets: &[u32],
    indexes: &[u32],
    s: u32,
    start: u32,
    out: &mut [u32],
) -> Walked
    requires { Listable triangles.now halfedges.now offsets.now indexes.now s }
    ensures { Fills (list_from triangles.now halfedges.now offsets.now indexes.now s start)
        out.old out.new result.count result.ended }
{
    if nothing_lent(offsets.len(), indexes.len()) {
        return walks::neighbours::neighbours(triangles, halfedges, start, out);
    }
    crate::clipped::clipped_neighbours(triangles, halfedges, offsets, indexes, s, start, out)
}

// Writes the list of site s at place n of `out`. Answers where it ends.
fn append_list(
    triangles: &[u32],
    halfedges: &[u32],
    table: &[u32],
    offsets: &[u32],
    indexes: &[u32],
    s: usize,
    n: usize,
    out: &mut [u32],
) -> usize
    requires { Listable triangles.now halfedges.now offsets.now indexes.now s × (s < length table.now) × (s < EMPTY)
        × (n + length (list_of triangles.now halfedges.now table.now offsets.now indexes.now s) ≤ length out.old)
        × (n + length (list_of triangles.now halfedges.now table.now offsets.now indexes.now s) < EMPTY) }
    ensures { Appended (list_of triangles.now halfedges.now table.now offsets.now indexes.now s)
        out.old out.new n result }
{
    let start = table[s];
    let w = list_from(
        triangles,
        halfedges,
        offsets,
        indexes,
        s as u32,
        start,
        &mut out[n..],
    );
    n + w.count
}

// Writes the lists of all sites one after the other, and where each begins. Answers where they end.
fn write_lists(
    triangles: &[u32],
    halfedges: &[u32],
    table: &[u32],
    offsets: &[u32],
    indexes: &[u32],
    starts: &mut [u32],
    out: &mut [u32],
) -> usize
    requires { ListsFit triangles.now halfedges.now table.now offsets.now indexes.now (length starts.old) (length out.old) }
    ensures { WrittenLists (lists_to (list_of triangles.now halfedges.now table.now offsets.now indexes.now)
        (length table.now)) starts.old starts.new out.old out.new result }
{
    starts[0] = 0;
    let mut n: usize = 0;
    for s in 0..table.len() {
        n = append_list(triangles, halfedges, table, offsets, indexes, s, n, out);
        starts[s + 1] = n as u32;
    }
    n
}

// The same, and what is behind them in the slices becomes `EMPTY`.
pub fn make_lists(
    triangles: &[u32],
    halfedges: &[u32],
    table: &[u32],
    offsets: &[u32],
    indexes: &[u32],
    starts: &mut [u32],
    out: &mut [u32],
)
    requires { ListsFit triangles.now halfedges.now table.now offsets.now indexes.now (length starts.old) (length out.old) }
    ensures { MadeLists (lists_to (list_of triangles.now halfedges.now table.now offsets.now indexes.now)
        (length table.now)) starts.old starts.new out.old out.new }
{
    let n = write_lists(triangles, halfedges, table, offsets, indexes, starts, out);
    let count = table.len() + 1;
    fill_from(starts, count, EMPTY);
    fill_from(out, n, EMPTY);
}
