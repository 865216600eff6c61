// The exports of module edges of crate voronoi, which says what each does.
ghost use Rattle.plane.specs.points.Plane.{at};
ghost use Rattle.plane.specs.given.Given.{by_edges};
ghost use Rattle.plane.specs.lines.Line.{line_of};
ghost use Rattle.plane.specs.rays.Ray.{ray_of};
ghost use Rattle.mesh.specs.Accepted.{mesh};
ghost use Rattle.admission.specs.Slices.{slices};
ghost use Rattle.reasons.specs.Reason.{tells};
ghost use Rattle.voronoi.specs.Plane.{Centered, Corners, Inside, ExclusivelyInside, WhichEdge, Meets};
ghost use Rattle.voronoi.specs.Builds.{Build};
ghost use Rattle.voronoi.specs.Explanations.{Why};
ghost use Rattle.voronoi.specs.Audits.{Audit};

#[unsafe(no_mangle)]
pub extern "C" fn voronoi_box_by_edges(
    left: f64,
    top: f64,
    right: f64,
    bottom: f64,
    cx: &mut f64,
    cy: &mut f64,
    across: &mut f64,
    down: &mut f64,
) -> u32
    ensures { Centered (by_edges left top right bottom) result cx.new cy.new across.new down.new }
{
    voronoi::edges::voronoi_box_by_edges(left, top, right, bottom, cx, cy, across, down)
}

#[unsafe(no_mangle)]
pub extern "C" fn voronoi_corners_by_edges(
    left: f64,
    top: f64,
    right: f64,
    bottom: f64,
    out: &mut [f64],
) -> u32
    ensures { Corners (by_edges left top right bottom) out.old result out.new }
{
    voronoi::edges::voronoi_corners_by_edges(left, top, right, bottom, out)
}

#[unsafe(no_mangle)]
pub extern "C" fn voronoi_is_inside_by_edges(
    left: f64,
    top: f64,
    right: f64,
    bottom: f64,
    x: f64,
    y: f64,
    inside: &mut u32,
) -> u32
    ensures { Inside (by_edges left top right bottom) (at x y) result inside.new }
{
    voronoi::edges::voronoi_is_inside_by_edges(left, top, right, bottom, x, y, inside)
}

#[unsafe(no_mangle)]
pub extern "C" fn voronoi_is_exclusively_inside_by_edges(
    left: f64,
    top: f64,
    right: f64,
    bottom: f64,
    x: f64,
    y: f64,
    inside: &mut u32,
) -> u32
    ensures { ExclusivelyInside (by_edges left top right bottom) (at x y) result inside.new }
{
    voronoi::edges::voronoi_is_exclusively_inside_by_edges(left, top, right, bottom, x, y, inside)
}

#[unsafe(no_mangle)]
pub extern "C" fn voronoi_which_edge_by_edges(
    left: f64,
    top: f64,
    right: f64,
    bottom: f64,
    x: f64,
    y: f64,
    side: &mut u32,
) -> u32
    ensures { WhichEdge (by_edges left top right bottom) (at x y) result side.new }
{
    voronoi::edges::voronoi_which_edge_by_edges(left, top, right, bottom, x, y, side)
}

#[unsafe(no_mangle)]
pub extern "C" fn voronoi_intersect_line_by_edges(
    left: f64,
    top: f64,
    right: f64,
    bottom: f64,
    px: f64,
    py: f64,
    qx: f64,
    qy: f64,
    count: &mut u32,
    x: &mut f64,
    y: &mut f64,
    u: &mut f64,
    v: &mut f64,
) -> u32
    ensures { Meets line_of (by_edges left top right bottom) (at px py) (at qx qy) result
        count.new x.new y.new u.new v.new }
{
    voronoi::edges::voronoi_intersect_line_by_edges(
        left, top, right, bottom, px, py, qx, qy, count, x, y, u, v,
    )
}

#[unsafe(no_mangle)]
pub extern "C" fn voronoi_project_ray_by_edges(
    left: f64,
    top: f64,
    right: f64,
    bottom: f64,
    px: f64,
    py: f64,
    dx: f64,
    dy: f64,
    count: &mut u32,
    x: &mut f64,
    y: &mut f64,
    u: &mut f64,
    v: &mut f64,
) -> u32
    ensures { Meets ray_of (by_edges left top right bottom) (at px py) (at dx dy) result
        count.new x.new y.new u.new v.new }
{
    voronoi::edges::voronoi_project_ray_by_edges(
        left, top, right, bottom, px, py, dx, dy, count, x, y, u, v,
    )
}

#[unsafe(no_mangle)]
pub extern "C" fn voronoi_build_by_edges(
    left: f64,
    top: f64,
    right: f64,
    bottom: f64,
    sites: &[f64],
    triangles: &[u32],
    halfedges: &[u32],
    hull: &[u32],
    work: &mut [u32],
    vertices: &mut [f64],
    indexes: &mut [u32],
    offsets: &mut [u32],
    counts: &mut [u32],
) -> u32
    ensures { Build (mesh sites.now triangles.now halfedges.now hull.now) (by_edges left top right bottom)
        (slices work.old vertices.old indexes.old offsets.old counts.old)
        (slices work.new vertices.new indexes.new offsets.new counts.new) result }
{
    voronoi::edges::voronoi_build_by_edges(
        left, top, right, bottom, sites, triangles, halfedges, hull, work, vertices, indexes,
        offsets, counts,
    )
}

#[unsafe(no_mangle)]
pub extern "C" fn voronoi_why_by_edges(
    left: f64,
    top: f64,
    right: f64,
    bottom: f64,
    sites: &[f64],
    triangles: &[u32],
    halfedges: &[u32],
    hull: &[u32],
    asked: u32,
    first: u32,
    second: u32,
    work: &mut [u32],
    vertices: &mut [f64],
    indexes: &mut [u32],
    offsets: &mut [u32],
    counts: &mut [u32],
    kind: &mut u32,
    place: &mut u32,
    from: &mut u32,
    to: &mut u32,
) -> u32
    ensures { Why (mesh sites.now triangles.now halfedges.now hull.now) (by_edges left top right bottom) asked first second
        (slices work.old vertices.old indexes.old offsets.old counts.old)
        (slices work.new vertices.new indexes.new offsets.new counts.new)
        (tells result kind.new place.new from.new to.new) }
{
    voronoi::edges::voronoi_why_by_edges(
        left, top, right, bottom, sites, triangles, halfedges, hull, asked, first, second, work,
        vertices, indexes, offsets, counts, kind, place, from, to,
    )
}

#[unsafe(no_mangle)]
pub extern "C" fn voronoi_audit_by_edges(
    left: f64,
    top: f64,
    right: f64,
    bottom: f64,
    sites: &[f64],
    vertices: &[f64],
    offsets: &[u32],
    indexes: &[u32],
    starts: &[u32],
    others: &[u32],
    bits: u32,
    kind: &mut u32,
    site: &mut u32,
    vertex: &mut u32,
    other: &mut u32,
    missing: &mut f64,
) -> u32
    ensures { Audit (by_edges left top right bottom) sites.now vertices.now offsets.now indexes.now
        starts.now others.now bits result kind.new site.new vertex.new other.new missing.new }
{
    voronoi::edges::voronoi_audit_by_edges(
        left, top, right, bottom, sites, vertices, offsets, indexes, starts, others, bits, kind,
        site, vertex, other, missing,
    )
}
