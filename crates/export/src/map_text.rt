// Writes cells as lines for map tools into a lent slice of bytes: each function writes its text from a place on and answers the place after it.
ghost use Rattle.std.specs.Prelude.{◌/◌, ◌≤◌, length};
ghost use Rattle.octets.specs.Wrote.{Wrote, HasRoom};
ghost use Rattle.wkb.specs.Polygon.{patterns};
ghost use Rattle.arguments.specs.entries.Named.{EntriesNamed};
ghost use Rattle.wkb.specs.Promise.{image};
ghost use Rattle.export.specs.map_text.MapText.{map_line, map_lines, map_text, Drawn};

use base::numbers::wide;
use octets::hex::put_hex;
use octets::put;
use printing::parts::decimal;

fn map_line(out: &mut [u8], at: usize, i: u32, bytes: &[u8]) -> usize
    requires { HasRoom out.old at (map_line i bytes.now) }
    ensures { Wrote out.old out.new at result (map_line i bytes.now) }
{
    let a = decimal(out, at, i);
    let b = put(out, a, b",");
    let c = put_hex(out, b, bytes);
    put(out, c, b"\n")
}

// The line of a cell.
fn cell_line(out: &mut [u8], at: usize, i: u32, vertices: &[f64], entries: &[u32]) -> usize
    requires { EntriesNamed entries.now (length vertices.now / 2) × (length entries.now ≤ 3076) × HasRoom out.old at (map_line i (image (patterns vertices.now) entries.now)) }
    ensures { Wrote out.old out.new at result (map_line i (image (patterns vertices.now) entries.now)) }
{
    let mut bytes = [0u8; 49245];
    let n = wkb::put_cell(&mut bytes, vertices, entries);
    map_line(out, at, i, &bytes[..n])
}

fn map_lines(
    out: &mut [u8],
    at: usize,
    sites: usize,
    vertices: &[f64],
    offsets: &[u32],
    indexes: &[u32],
) -> usize
    requires { Drawn offsets.now indexes.now sites (length vertices.now / 2)
        × HasRoom out.old at (map_lines (patterns vertices.now) offsets.now indexes.now 0 sites) }
    ensures { Wrote out.old out.new at result (map_lines (patterns vertices.now) offsets.now indexes.now 0 sites) }
{
    let mut end = at;
    for i in 0..sites {
        let from = wide(offsets[i]);
        let to = wide(offsets[i + 1]);
        end = cell_line(out, end, i as u32, vertices, &indexes[from..to]);
    }
    end
}

// The heading, and a line for each cell.
pub fn map_text(
    out: &mut [u8],
    sites: u32,
    vertices: &[f64],
    offsets: &[u32],
    indexes: &[u32],
) -> usize
    requires { Drawn offsets.now indexes.now sites (length vertices.now / 2)
        × HasRoom out.old 0 (map_text (patterns vertices.now) offsets.now indexes.now sites) }
    ensures { Wrote out.old out.new 0 result (map_text (patterns vertices.now) offsets.now indexes.now sites) }
{
    let end = put(out, 0, b"site,geometry\n");
    map_lines(out, end, wide(sites), vertices, offsets, indexes)
}
