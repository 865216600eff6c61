// The certificate of pieces: kind 0 says that they are the true ones, from the box, the sites and the pieces alone.
// The four numbers are always written: EMPTY where it is refused and where a kind names none. The work is as it was after 1 to 6, EMPTY throughout after 0, 16, 18 and 24.
ghost use Rattle.plane.specs.points.Plane.{at};
ghost use Rattle.plane.specs.given.Given.{by_size, by_edges};
ghost use Rattle.voronoi.specs.Certificates.{Certify};

// In the box of the center (cx, cy), width and height.
pub fn voronoi_certify(
    cx: f64,
    cy: f64,
    width: f64,
    height: f64,
    sites: &[f64],
    vertices: &[f64],
    offsets: &[u32],
    indexes: &[u32],
    bits: u32,
    work: &mut [u32],
    kind: &mut u32,
    site: &mut u32,
    vertex: &mut u32,
    other: &mut u32,
) -> u32
    ensures { Certify (by_size (at cx cy) width height) sites.now vertices.now offsets.now indexes.now bits
        work.old work.new result kind.new site.new vertex.new other.new }
{
    let given = plane::given::by_size(cx, cy, width, height);
    let t = certifying::call::certify(given, sites, vertices, offsets, indexes, bits, work);
    *kind = t.kind;
    *site = t.site;
    *vertex = t.vertex;
    *other = t.other;
    t.number
}

// The same in the box of four edges.
pub fn voronoi_certify_by_edges(
    left: f64,
    top: f64,
    right: f64,
    bottom: f64,
    sites: &[f64],
    vertices: &[f64],
    offsets: &[u32],
    indexes: &[u32],
    bits: u32,
    work: &mut [u32],
    kind: &mut u32,
    site: &mut u32,
    vertex: &mut u32,
    other: &mut u32,
) -> u32
    ensures { Certify (by_edges left top right bottom) sites.now vertices.now offsets.now indexes.now bits
        work.old work.new result kind.new site.new vertex.new other.new }
{
    let given = plane::given::by_edges(left, top, right, bottom);
    let t = certifying::call::certify(given, sites, vertices, offsets, indexes, bits, work);
    *kind = t.kind;
    *site = t.site;
    *vertex = t.vertex;
    *other = t.other;
    t.number
}
