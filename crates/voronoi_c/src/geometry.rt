// The exports of module geometry of crate voronoi, which says what each does.
ghost use Rattle.std.specs.Prelude.{◌≡◌};
ghost use Rattle.plane.specs.points.Plane.{at, near_of};
ghost use Rattle.plane.specs.given.Given.{by_size};
ghost use Rattle.plane.specs.lines.Line.{line_of};
ghost use Rattle.plane.specs.rays.Ray.{ray_of};
ghost use Rattle.plane_calls.specs.Plane.{bit};
ghost use Rattle.voronoi.specs.Plane.{Dist2, Circumcenter, Centroid, Edges, Corners, Inside, ExclusivelyInside, WhichEdge, Meets};

#[unsafe(no_mangle)]
pub extern "C" fn voronoi_abs_diff_eq(a: f64, b: f64) -> u32
    ensures { result ≡ bit (near_of a b) }
{
    voronoi::geometry::voronoi_abs_diff_eq(a, b)
}

#[unsafe(no_mangle)]
pub extern "C" fn voronoi_dist2(ax: f64, ay: f64, bx: f64, by: f64, d: &mut f64) -> u32
    ensures { Dist2 (at ax ay) (at bx by) result d.new }
{
    voronoi::geometry::voronoi_dist2(ax, ay, bx, by, d)
}

#[unsafe(no_mangle)]
pub extern "C" fn voronoi_circumcenter(
    ax: f64,
    ay: f64,
    bx: f64,
    by: f64,
    cx: f64,
    cy: f64,
    x: &mut f64,
    y: &mut f64,
) -> u32
    ensures { Circumcenter (at ax ay) (at bx by) (at cx cy) result x.new y.new }
{
    voronoi::geometry::voronoi_circumcenter(ax, ay, bx, by, cx, cy, x, y)
}

#[unsafe(no_mangle)]
pub extern "C" fn voronoi_centroid(points: &[f64], x: &mut f64, y: &mut f64) -> u32
    ensures { Centroid points.now result x.new y.new }
{
    voronoi::geometry::voronoi_centroid(points, x, y)
}

#[unsafe(no_mangle)]
pub extern "C" fn voronoi_box(
    cx: f64,
    cy: f64,
    width: f64,
    height: f64,
    left: &mut f64,
    top: &mut f64,
    right: &mut f64,
    bottom: &mut f64,
    across: &mut f64,
    down: &mut f64,
) -> u32
    ensures { Edges (by_size (at cx cy) width height) result left.new top.new right.new bottom.new
        across.new down.new }
{
    voronoi::geometry::voronoi_box(
        cx, cy, width, height, left, top, right, bottom, across, down,
    )
}

#[unsafe(no_mangle)]
pub extern "C" fn voronoi_corners(cx: f64, cy: f64, width: f64, height: f64, out: &mut [f64]) -> u32
    ensures { Corners (by_size (at cx cy) width height) out.old result out.new }
{
    voronoi::geometry::voronoi_corners(cx, cy, width, height, out)
}

#[unsafe(no_mangle)]
pub extern "C" fn voronoi_is_inside(
    cx: f64,
    cy: f64,
    width: f64,
    height: f64,
    x: f64,
    y: f64,
    inside: &mut u32,
) -> u32
    ensures { Inside (by_size (at cx cy) width height) (at x y) result inside.new }
{
    voronoi::geometry::voronoi_is_inside(cx, cy, width, height, x, y, inside)
}

#[unsafe(no_mangle)]
pub extern "C" fn voronoi_is_exclusively_inside(
    cx: f64,
    cy: f64,
    width: f64,
    height: f64,
    x: f64,
    y: f64,
    inside: &mut u32,
) -> u32
    ensures { ExclusivelyInside (by_size (at cx cy) width height) (at x y) result inside.new }
{
    voronoi::geometry::voronoi_is_exclusively_inside(cx, cy, width, height, x, y, inside)
}

#[unsafe(no_mangle)]
pub extern "C" fn voronoi_which_edge(
    cx: f64,
    cy: f64,
    width: f64,
    height: f64,
    x: f64,
    y: f64,
    side: &mut u32,
) -> u32
    ensures { WhichEdge (by_size (at cx cy) width height) (at x y) result side.new }
{
    voronoi::geometry::voronoi_which_edge(cx, cy, width, height, x, y, side)
}

#[unsafe(no_mangle)]
pub extern "C" fn voronoi_intersect_line(
    cx: f64,
    cy: f64,
    width: f64,
    height: f64,
    px: f64,
    py: f64,
    qx: f64,
    qy: f64,
    count: &mut u32,
    x: &mut f64,
    y: &mut f64,
    u: &mut f64,
    v: &mut f64,
) -> u32
    ensures { Meets line_of (by_size (at cx cy) width height) (at px py) (at qx qy) result
        count.new x.new y.new u.new v.new }
{
    voronoi::geometry::voronoi_intersect_line(
        cx, cy, width, height, px, py, qx, qy, count, x, y, u, v,
    )
}

#[unsafe(no_mangle)]
pub extern "C" fn voronoi_project_ray(
    cx: f64,
    cy: f64,
    width: f64,
    height: f64,
    px: f64,
    py: f64,
    dx: f64,
    dy: f64,
    count: &mut u32,
    x: &mut f64,
    y: &mut f64,
    u: &mut f64,
    v: &mut f64,
) -> u32
    ensures { Meets ray_of (by_size (at cx cy) width height) (at px py) (at dx dy) result
        count.new x.new y.new u.new v.new }
{
    voronoi::geometry::voronoi_project_ray(cx, cy, width, height, px, py, dx, dy, count, x, y, u, v)
}
