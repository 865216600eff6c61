// The exports of module audits of crate voronoi, which says what each does.
ghost use Rattle.plane.specs.points.Plane.{at};
ghost use Rattle.plane.specs.given.Given.{by_size};
ghost use Rattle.voronoi.specs.Audits.{Audit};

#[unsafe(no_mangle)]
pub extern "C" fn voronoi_audit(
    cx: f64,
    cy: f64,
    width: f64,
    height: f64,
    sites: &[f64],
    vertices: &[f64],
    offsets: &[u32],
    indexes: &[u32],
    starts: &[u32],
    others: &[u32],
    bits: u32,
    kind: &mut u32,
    site: &mut u32,
    vertex: &mut u32,
    other: &mut u32,
    missing: &mut f64,
) -> u32
    ensures { Audit (by_size (at cx cy) width height) sites.now vertices.now offsets.now indexes.now
        starts.now others.now bits result kind.new site.new vertex.new other.new missing.new }
{
    voronoi::audits::voronoi_audit(
        cx, cy, width, height, sites, vertices, offsets, indexes, starts, others, bits, kind, site,
        vertex, other, missing,
    )
}
