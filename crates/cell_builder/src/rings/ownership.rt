// The corners' owners (calculate_corner_ownership): where the path to each corner ends, begun at the owner before.
ghost use Rattle.std.specs.Prelude.{◌≡◌, ◌/◌, length};
ghost use Rattle.plane.specs.boxes.Box.{corners_of};
ghost use Rattle.definition.specs.Build.{owners_from};
ghost use Rattle.cell_builder.specs.rings.Ownership.{Owned};

use plane::boxes::{BoundingBox, corners};
use walks::paths::path_end;

pub fn calculate_corner_ownership(
    sites: &[f64],
    triangles: &[u32],
    halfedges: &[u32],
    table: &[u32],
    bounds: BoundingBox,
    first: u32,
) -> [u32; 4]
    requires { Owned sites.now triangles.now halfedges.now table.now bounds first }
    ensures { result ≡ owners_from sites.now triangles.now halfedges.now table.now (length sites.now / 2) first (corners_of bounds) }
{
    let c = corners(bounds);
    let o0 = path_end(sites, triangles, halfedges, table, first, c[0]);
    let o1 = path_end(sites, triangles, halfedges, table, o0, c[1]);
    let o2 = path_end(sites, triangles, halfedges, table, o1, c[2]);
    let o3 = path_end(sites, triangles, halfedges, table, o2, c[3]);
    [o0, o1, o2, o3]
}
