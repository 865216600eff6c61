// What the cells begin with: the frame of the index list, the box's corners, the hull's extensions.
ghost use Rattle.std.specs.Prelude.{◌≡◌, ◌≤◌, length};
ghost use Rattle.cell_builder.specs.tried.SlicesInvariant.{frame_of};
ghost use Rattle.cell_builder.specs.Start.{extended_of, Extendable, BegunBy};

use crate::finish::Progress;
use crate::rings::extensions::extend_hull;
use crate::tried::Frame;
use definition::{Fault, Reused};
use plane::boxes::{BoundingBox, corners};
use vertices::calculate_corners;

// For so many entries of the triangle list and so many hull sites.
pub fn frame(bounds: BoundingBox, entries: usize, hull: usize) -> Frame
    requires { (entries ≤ 393216) × (hull ≤ 65536) }
    ensures { result ≡ frame_of bounds entries hull }
{
    Frame {
        bounds: bounds,
        centers: entries / 3,
        stage: 3 * entries + 6 * hull + 4,
        limit: 3 * entries + entries / 3 + 7 * hull + 6,
    }
}

// Corners and extensions after the circumcenters.
pub fn extend(
    sites: &[f64],
    triangles: &[u32],
    hull: &[u32],
    table: &[u32],
    vertices: &mut [f64],
    indexes: &mut [u32],
    f: Frame,
    owners: [u32; 4],
) -> Progress
    requires { Extendable sites.now triangles.now hull.now table.now f (length vertices.old) (length indexes.old) }
    ensures { BegunBy (length hull.now) f owners
        (extended_of sites.now triangles.now hull.now table.now f.bounds f.centers vertices.old)
        indexes.old result vertices.new indexes.new }
{
    let bounds = f.bounds;
    let count = calculate_corners(vertices, indexes, f.limit, f.centers, corners(bounds));
    let numbers = f.limit - hull.len();
    let passed = extend_hull(
        sites, triangles, hull, table, vertices, indexes, numbers, f.limit, f.centers, count,
    );
    let reused = Reused {
        extensions: passed.reused,
        firsts: 0,
        seconds: 0,
    };
    if passed.place < hull.len() {
        return Progress {
            fault: Fault {
                number: base::numbers::REFUSED_EXTENSION,
                place: passed.place as u32,
                from: 0,
                to: 0,
            },
            count: passed.count,
            owners: owners,
            reused: reused,
        };
    }
    Progress {
        fault: Fault {
            number: 0,
            place: 0,
            from: 0,
            to: 0,
        },
        count: passed.count,
        owners: owners,
        reused: reused,
    }
}
