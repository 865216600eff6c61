// The exports of module certificates of crate voronoi, which says what each does.
ghost use Rattle.plane.specs.points.Plane.{at};
ghost use Rattle.plane.specs.given.Given.{by_size, by_edges};
ghost use Rattle.voronoi.specs.Certificates.{Certify};

#[unsafe(no_mangle)]
pub extern "C" fn voronoi_certify(
    cx: f64,
    cy: f64,
    width: f64,
    height: f64,
    sites: &[f64],
    vertices: &[f64],
    offsets: &[u32],
    indexes: &[u32],
    bits: u32,
    work: &mut [u32],
    kind: &mut u32,
    site: &mut u32,
    vertex: &mut u32,
    other: &mut u32,
) -> u32
    ensures { Certify (by_size (at cx cy) width height) sites.now vertices.now offsets.now indexes.now bits
        work.old work.new result kind.new site.new vertex.new other.new }
{
    voronoi::certificates::voronoi_certify(
        cx, cy, width, height, sites, vertices, offsets, indexes, bits, work, kind, site, vertex,
        other,
    )
}

#[unsafe(no_mangle)]
pub extern "C" fn voronoi_certify_by_edges(
    left: f64,
    top: f64,
    right: f64,
    bottom: f64,
    sites: &[f64],
    vertices: &[f64],
    offsets: &[u32],
    indexes: &[u32],
    bits: u32,
    work: &mut [u32],
    kind: &mut u32,
    site: &mut u32,
    vertex: &mut u32,
    other: &mut u32,
) -> u32
    ensures { Certify (by_edges left top right bottom) sites.now vertices.now offsets.now indexes.now bits
        work.old work.new result kind.new site.new vertex.new other.new }
{
    voronoi::certificates::voronoi_certify_by_edges(
        left, top, right, bottom, sites, vertices, offsets, indexes, bits, work, kind, site,
        vertex, other,
    )
}
