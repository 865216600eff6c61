// The exports of module maps of crate voronoi, which says what each does.
ghost use Rattle.voronoi.specs.Maps.{CellWkb, CellWkbBits, AllWkb};

#[unsafe(no_mangle)]
pub extern "C" fn voronoi_cell_wkb(
    vertices: &[f64],
    offsets: &[u32],
    indexes: &[u32],
    site: u32,
    out: &mut [u8],
    written: &mut usize,
) -> u32
    ensures { CellWkb vertices.now offsets.now indexes.now site
        out.old out.new written.new result }
{
    voronoi::maps::voronoi_cell_wkb(vertices, offsets, indexes, site, out, written)
}

#[unsafe(no_mangle)]
pub extern "C" fn voronoi_cell_wkb_bits(
    vertices: &[u64],
    offsets: &[u32],
    indexes: &[u32],
    site: u32,
    out: &mut [u8],
    written: &mut usize,
) -> u32
    ensures { CellWkbBits vertices.now offsets.now indexes.now site
        out.old out.new written.new result }
{
    voronoi::maps::voronoi_cell_wkb_bits(vertices, offsets, indexes, site, out, written)
}

#[unsafe(no_mangle)]
pub extern "C" fn voronoi_all_wkb(
    vertices: &[f64],
    offsets: &[u32],
    indexes: &[u32],
    starts: &mut [u64],
    out: &mut [u8],
    written: &mut usize,
) -> u32
    ensures { AllWkb vertices.now offsets.now indexes.now starts.old starts.new
        out.old out.new written.new result }
{
    voronoi::maps::voronoi_all_wkb(vertices, offsets, indexes, starts, out, written)
}
