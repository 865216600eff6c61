// Cells for map tools: the cell of a site as a Polygon in Well-Known Binary, little-endian, or those of all sites. Refused, the output is as it was; past what is written it always is.
ghost use Rattle.voronoi.specs.Maps.{CellWkb, CellWkbBits, AllWkb};

// Of vertices as floats: a NaN is written as 0x7FF8000000000000.
pub fn voronoi_cell_wkb(
    vertices: &[f64],
    offsets: &[u32],
    indexes: &[u32],
    site: u32,
    out: &mut [u8],
    written: &mut usize,
) -> u32
    ensures { CellWkb vertices.now offsets.now indexes.now site
        out.old out.new written.new result }
{
    match wkb::cell_wkb(vertices, offsets, indexes, site, out) {
        Ok(n) => {
            *written = n;
            0
        }
        Err(r) => {
            *written = 0;
            r.into()
        }
    }
}

// Of vertices as patterns, each as it is.
pub fn voronoi_cell_wkb_bits(
    vertices: &[u64],
    offsets: &[u32],
    indexes: &[u32],
    site: u32,
    out: &mut [u8],
    written: &mut usize,
) -> u32
    ensures { CellWkbBits vertices.now offsets.now indexes.now site
        out.old out.new written.new result }
{
    match wkb::cell_wkb_bits(vertices, offsets, indexes, site, out) {
        Ok(n) => {
            *written = n;
            0
        }
        Err(r) => {
            *written = 0;
            r.into()
        }
    }
}

// Of all cells, one after the other, each as `voronoi_cell_wkb` writes it; `starts` has where each begins, where the last ends, then 2^64 - 1.
pub fn voronoi_all_wkb(
    vertices: &[f64],
    offsets: &[u32],
    indexes: &[u32],
    starts: &mut [u64],
    out: &mut [u8],
    written: &mut usize,
) -> u32
    ensures { AllWkb vertices.now offsets.now indexes.now starts.old starts.new
        out.old out.new written.new result }
{
    match all_wkb::all_wkb(vertices, offsets, indexes, starts, out) {
        Ok(n) => {
            *written = n;
            0
        }
        Err(r) => {
            *written = 0;
            r.into()
        }
    }
}
