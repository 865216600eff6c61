// The circumcenters of all triangles, with rule 11.
ghost use Rattle.std.specs.Prelude.{◌≡◌, [], ◌+◌, ◌*◌, ◌/◌, ◌≤◌, ◌<◌, length};
ghost use Rattle.definition.specs.Build.{center_at, centers_from};
ghost use Rattle.cell_builder.specs.rings.Centers.{Named, CentersBy};

use base::numbers::wide;
use plane::centers::{center_ok, circumcenter_of};
use plane::points::{Point, point_at};
use vertices::put;

// The circumcenter of triangle t.
fn center_at(sites: &[f64], triangles: &[u32], t: usize) -> Point
    requires { Named sites.now triangles.now × (3 * t + 2 < length triangles.now) }
    ensures { result ≡ center_at sites.now triangles.now t }
{
    circumcenter_of(
        point_at(sites, wide(triangles[3 * t])),
        point_at(sites, wide(triangles[3 * t + 1])),
        point_at(sites, wide(triangles[3 * t + 2])),
    )
}

// Answers the lowest triangle whose circumcenter breaks its rule, or their number.
pub fn calculate_circumcenters(sites: &[f64], triangles: &[u32], vertices: &mut [f64]) -> usize
    requires { Named sites.now triangles.now × (2 * (length triangles.now / 3) ≤ length vertices.old) }
    ensures { CentersBy (centers_from sites.now triangles.now 0 (length triangles.now / 3) [])
        (length triangles.now / 3) result vertices.old vertices.new }
{
    let count = triangles.len() / 3;
    for t in 0..count {
        let c = center_at(sites, triangles, t);
        if !center_ok(c) {
            return t;
        }
        put(vertices, t, c);
    }
    count
}
