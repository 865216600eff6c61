// Gauges from the boards' files: sites read from a MultiPoint in Well-Known Binary, in both byte orders, and written as one, little-endian.
ghost use Rattle.voronoi.specs.Gauges.{ReadMultipoint, WriteMultipoint};

// After 0 the output past the sites is +0; refused, it is as it was. The count is always written, 0 when refused.
pub fn voronoi_read_multipoint(file: &[u8], sites: &mut [f64], count: &mut u32) -> u32
    ensures { ReadMultipoint file.now sites.old sites.new count.new result }
{
    match wkb::multipoint::read(file, sites) {
        Ok(n) => {
            *count = n;
            0
        }
        Err(r) => {
            *count = 0;
            r.into()
        }
    }
}

// Refused, the output is as it was; past the file it always is.
pub fn voronoi_write_multipoint(sites: &[f64], out: &mut [u8], written: &mut usize) -> u32
    ensures { WriteMultipoint sites.now out.old out.new written.new result }
{
    match wkb::multipoint_writer::write(sites, out) {
        Ok(n) => {
            *written = n;
            0
        }
        Err(r) => {
            *written = 0;
            r.into()
        }
    }
}
