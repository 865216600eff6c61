// The exports of module gauges of crate voronoi, which says what each does.
ghost use Rattle.voronoi.specs.Gauges.{ReadMultipoint, WriteMultipoint};

#[unsafe(no_mangle)]
pub extern "C" fn voronoi_read_multipoint(file: &[u8], sites: &mut [f64], count: &mut u32) -> u32
    ensures { ReadMultipoint file.now sites.old sites.new count.new result }
{
    voronoi::gauges::voronoi_read_multipoint(file, sites, count)
}

#[unsafe(no_mangle)]
pub extern "C" fn voronoi_write_multipoint(
    sites: &[f64],
    out: &mut [u8],
    written: &mut usize,
) -> u32
    ensures { WriteMultipoint sites.now out.old out.new written.new result }
{
    voronoi::gauges::voronoi_write_multipoint(sites, out, written)
}
