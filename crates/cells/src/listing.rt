// Writes the listing of `cells` into a lent slice of bytes: each function writes its text from a place on and answers the place after it.
ghost use Rattle.printing.specs.parts.Labelled.{entries};
ghost use Rattle.printing.specs.parts.Listed.{Layout};
ghost use Rattle.cells.specs.listing.Listing.{counts, cell_line, cell_lines, counts_and_cells, corners, reused_line, listing};
ghost use Rattle.octets.specs.Wrote.{Wrote, HasRoom};

use base::numbers::wide;
use octets::put;
use printing::parts::{entry, labelled};

fn entries(out: &mut [u8], at: usize, list: &[u32]) -> usize
    requires { HasRoom out.old at (entries list.now) }
    ensures { Wrote out.old out.new at result (entries list.now) }
{
    let mut end = at;
    for n in list {
        end = entry(out, end, *n);
    }
    end
}

fn counts(out: &mut [u8], sites: u32, triangles: u32, vertices: u32) -> usize
    requires { HasRoom out.old 0 (counts sites triangles vertices) }
    ensures { Wrote out.old out.new 0 result (counts sites triangles vertices) }
{
    let a = labelled(out, 0, b"sites", sites);
    let b = labelled(out, a, b" triangles", triangles);
    let c = labelled(out, b, b" vertices", vertices);
    put(out, c, b"\n")
}

fn cell_line(out: &mut [u8], at: usize, i: u32, cell: &[u32]) -> usize
    requires { HasRoom out.old at (cell_line i cell.now) }
    ensures { Wrote out.old out.new at result (cell_line i cell.now) }
{
    let a = labelled(out, at, b"cell", i);
    let b = put(out, a, b":");
    let c = entries(out, b, cell);
    put(out, c, b"\n")
}

fn cell_lines(out: &mut [u8], at: usize, sites: usize, offsets: &[u32], cells: &[u32]) -> usize
    requires { (Layout offsets.now cells.now sites) × (HasRoom out.old at (cell_lines offsets.now cells.now 0 sites)) }
    ensures { Wrote out.old out.new at result (cell_lines offsets.now cells.now 0 sites) }
{
    let mut end = at;
    for i in 0..sites {
        let from = wide(offsets[i]);
        let to = wide(offsets[i + 1]);
        end = cell_line(out, end, i as u32, &cells[from..to]);
    }
    end
}

// The line of counts, then the lines of the cells.
fn counts_and_cells(
    out: &mut [u8],
    sites: u32,
    triangles: u32,
    vertices: u32,
    offsets: &[u32],
    cells: &[u32],
) -> usize
    requires { (Layout offsets.now cells.now sites) × (HasRoom out.old 0 (counts_and_cells sites triangles vertices offsets.now cells.now)) }
    ensures { Wrote out.old out.new 0 result (counts_and_cells sites triangles vertices offsets.now cells.now) }
{
    let end = counts(out, sites, triangles, vertices);
    cell_lines(out, end, wide(sites), offsets, cells)
}

fn corners(out: &mut [u8], at: usize, owners: [u32; 4], lost: u32) -> usize
    requires { HasRoom out.old at (corners owners lost) }
    ensures { Wrote out.old out.new at result (corners owners lost) }
{
    let a = put(out, at, b"corners");
    let b = entries(out, a, &owners);
    let c = labelled(out, b, b" lost", lost);
    put(out, c, b"\n")
}

// How many extensions, first crossings and second crossings reused a point.
fn reused(out: &mut [u8], at: usize, extensions: u32, firsts: u32, seconds: u32) -> usize
    requires { HasRoom out.old at (reused_line extensions firsts seconds) }
    ensures { Wrote out.old out.new at result (reused_line extensions firsts seconds) }
{
    let kinds = [extensions, firsts, seconds];
    let a = put(out, at, b"reused");
    let b = entries(out, a, &kinds);
    put(out, b, b"\n")
}

// The listing of a mesh.
pub fn listing(
    out: &mut [u8],
    sites: u32,
    triangles: u32,
    vertices: u32,
    offsets: &[u32],
    cells: &[u32],
    owners: [u32; 4],
    lost: u32,
    extensions: u32,
    firsts: u32,
    seconds: u32,
) -> usize
    requires { (Layout offsets.now cells.now sites)
        × (HasRoom out.old 0 (listing sites triangles vertices offsets.now cells.now owners lost extensions firsts seconds)) }
    ensures { Wrote out.old out.new 0 result
        (listing sites triangles vertices offsets.now cells.now owners lost extensions firsts seconds) }
{
    let a = counts_and_cells(out, sites, triangles, vertices, offsets, cells);
    let b = corners(out, a, owners, lost);
    reused(out, b, extensions, firsts, seconds)
}
