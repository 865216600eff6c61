// The ring of a site. Where it is bounded and lies wholly in the box no side cuts it, and its circumcenters go straight to the pen. Any other is cut in slots where it is short, and goes
// through the four sides as a stream where it is not.
ghost use Rattle.std.specs.Prelude.{◌≡◌, true, ◌*◌, ◌/◌, ◌≤◌, ◌<◌, length};
ghost use Rattle.base.specs.numbers.Numbers.{EMPTY};
ghost use Rattle.plane.specs.points.Flat.{point_at};
ghost use Rattle.plane.specs.sides.Sides.{inside_of};
ghost use Rattle.mesh.specs.Mesh.{whole_of};
ghost use Rattle.cutting.specs.cuts.Stream.{feed_all};
ghost use Rattle.cutting.specs.pen.Pen.{page};
ghost use Rattle.cutting.specs.pen.Room.{Ready};
ghost use Rattle.cutting_writer.specs.stream.Stages.{ink_at, cut_four};
ghost use Rattle.cutting_writer.specs.site.Ring.{site_ring};
ghost use Rattle.cutting_writer.specs.slots.Slots.{Slotted};
ghost use Rattle.cutting_writer.specs.ring.Inside.{RingInside, out_on};

use crate::short::{HALF, SLOTS, cut_laid, ink_slots};
use crate::site::{cut_by_sides, on_hull, turn_from};
use crate::stream::Spot;
use base::numbers::wide;
use cutting::border::entry_at;
use cutting::corner::{Carrier, near};
use cutting::meet::site_at;
use cutting::pen::{Pen, ink_numbered};
use mesh::next_halfedge;
use plane::boxes::BoundingBox;
use plane::points::Point;
use plane::sides::is_inside;

// Whether the circumcenter of the triangle of half-edge e is in the box.
fn center_inside(b: BoundingBox, centers: &[f64], e: u32) -> bool
    ensures { result ≡ inside_of b (point_at centers.now (e / 3)) }
{
    is_inside(b, site_at(centers, e / 3))
}

// Yes only where the walk from t comes back to t and each of its circumcenters is in the box.
fn lies_inside(b: BoundingBox, halfedges: &[u32], centers: &[f64], t: u32) -> bool
    requires { length halfedges.now < EMPTY }
    ensures { result ≡ true → RingInside b halfedges.now centers.now t }
{
    if halfedges.len() <= wide(t) {
        return false;
    }
    if on_hull(halfedges, wide(t)) {
        return false;
    }
    let mut e = t;
    for _ in 0..halfedges.len() {
        if !center_inside(b, centers, e) {
            return false;
        }
        let a = entry_at(halfedges, next_halfedge(wide(e)));
        if a == t {
            return true;
        }
        if halfedges.len() <= wide(a) {
            return false;
        }
        e = a;
    }
    false
}

// The circumcenters of the whole walk from t, as the pen takes them.
fn ink_walk(halfedges: &[u32], centers: &[f64], t: u32, start: Pen, indexes: &mut [u32]) -> Pen
    requires { (feed_all out_on (page start centers.now indexes.old) (whole_of halfedges.now t)).pen.at ≤ length indexes.old }
    ensures { page result centers.now indexes.new ≡ feed_all out_on (page start centers.now indexes.old) (whole_of halfedges.now t) }
{
    let mut pen = start;
    let mut e = t;
    for _ in 0..halfedges.len() {
        if halfedges.len() <= wide(e) {
            return pen;
        }
        let q = e / 3;
        pen = ink_numbered(pen, site_at(centers, q), q, indexes);
        e = turn_from(halfedges, t, e);
    }
    pen
}

// A ring that may meet the border, with slots for a short one.
fn cut_in_slots(
    b: BoundingBox,
    sites: &[f64],
    triangles: &[u32],
    halfedges: &[u32],
    centers: usize,
    t: u32,
    pen: Pen,
    slots: &mut [Spot],
    vertices: &mut [f64],
    indexes: &mut [u32],
) -> Pen
    requires { (length halfedges.now ≤ 3 * centers) × (length halfedges.now < EMPTY) × Slotted slots.old × Ready centers (page pen vertices.old indexes.old)
        (feed_all (ink_at b centers) (page pen vertices.old indexes.old) (cut_four b sites.now (site_ring sites.now triangles.now halfedges.now vertices.old t))) }
    ensures { page result vertices.new indexes.new ≡ feed_all (ink_at b centers) (page pen vertices.old indexes.old)
        (cut_four b sites.now (site_ring sites.now triangles.now halfedges.now vertices.old t)) }
{
    let l = cut_laid(b, sites, triangles, halfedges, vertices, t, slots);
    let from = l.from;
    let count = l.count;
    if HALF < count {
        return cut_by_sides(
            b, sites, triangles, halfedges, centers, t, pen, vertices, indexes,
        );
    }
    ink_slots(b, centers, from, count, pen, slots, vertices, indexes)
}

// The ring of the site whose walk begins at t, cut and written.
pub fn cut_ring(
    b: BoundingBox,
    sites: &[f64],
    triangles: &[u32],
    halfedges: &[u32],
    centers: usize,
    t: u32,
    pen: Pen,
    vertices: &mut [f64],
    indexes: &mut [u32],
) -> Pen
    requires { (length halfedges.now ≤ 3 * centers) × (length halfedges.now < EMPTY) × Ready centers (page pen vertices.old indexes.old)
        (feed_all (ink_at b centers) (page pen vertices.old indexes.old) (cut_four b sites.now (site_ring sites.now triangles.now halfedges.now vertices.old t))) }
    ensures { page result vertices.new indexes.new ≡ feed_all (ink_at b centers) (page pen vertices.old indexes.old)
        (cut_four b sites.now (site_ring sites.now triangles.now halfedges.now vertices.old t)) }
{
    if lies_inside(b, halfedges, vertices, t) {
        return ink_walk(halfedges, vertices, t, pen, indexes);
    }
    let none = Spot {
        corner: near(Point { x: 0.0, y: 0.0 }),
        on: Carrier::Infinity,
    };
    let mut slots = [none; SLOTS];
    cut_in_slots(
        b, sites, triangles, halfedges, centers, t, pen, &mut slots, vertices, indexes,
    )
}
