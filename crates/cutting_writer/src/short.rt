// A short ring, cut in slots: it is laid into one half of them, and each side that cuts it reads it there and writes what is left into the other half, as the definition has it. A side
// that all of its corners are within leaves it where it is. A ring that has no room there is left to the stream.
ghost use Rattle.std.specs.Prelude.{◌≡◌, true, List, [], ◌∷◌, ◌+◌, ◌≤◌, ◌<◌, Float, length};
ghost use Rattle.base.specs.numbers.Numbers.{EMPTY};
ghost use Rattle.cutting.specs.cuts.Cut.{kept, cut_by};
ghost use Rattle.cutting.specs.cuts.Stream.{feed_all};
ghost use Rattle.cutting.specs.cuts.Corners.{AllCorners, IsWithin};
ghost use Rattle.cutting.specs.pen.Pen.{page};
ghost use Rattle.cutting.specs.pen.Room.{Ready};
ghost use Rattle.cutting_writer.specs.stream.Stages.{at_of, side_at, ink_at, cut_four};
ghost use Rattle.cutting_writer.specs.site.Ring.{ray_of, far_of, site_ring};
ghost use Rattle.cutting_writer.specs.slots.Slots.{Slotted, corner_in, ring_in};
ghost use Rattle.cutting_writer.specs.short.Short.{AtHalf, next_slot, Edged, PassedSide, Cuts, LaidOn, LaidWalk};

use crate::site::{bisector, on_hull, out_spot, turn_from};
use crate::stream::{Spot, ink_spot};
use base::numbers::wide;
use cutting::border::hull_end;
use cutting::corner::{Carrier, Corner, SideName, within};
use cutting::meet::meet;
use cutting::pen::Pen;
use mesh::next_halfedge;
use plane::boxes::BoundingBox;

// The slots of a half: a ring is read from one half and written into the other.
pub const HALF: usize = 16;

pub const SLOTS: usize = 2 * HALF;

// Where a ring lies: in `count` slots from `from` on, where a half begins. More than a half holds: it has no room.
#[derive(Clone, Copy)]
pub struct Lying {
    pub from: usize,
    pub count: usize,
}

// How many slots a walk has filled, and its last half-edge.
#[derive(Clone, Copy)]
pub struct SlotTrail {
    pub count: usize,
    pub last: u32,
}

// The corner in slot k.
fn corner_at(slots: &[Spot], k: usize) -> Corner
    requires { (k < 32) × Slotted slots.now }
    ensures { result ≡ corner_in slots.now k }
{
    slots[k].corner
}

// Yes only where all corners of a ring are within side s.
fn all_within(b: BoundingBox, s: SideName, from: usize, count: usize, slots: &[Spot]) -> bool
    requires { (from + count ≤ 32) × Slotted slots.now }
    ensures { result ≡ true → (sites : List Float) → AllCorners (IsWithin (side_at b sites s)) (ring_in slots.now from count) }
{
    (0..count).all(|i| within(b, s, corner_at(slots, from + i)))
}

// What side s leaves of the edge from p to q, into the slots from `to` on behind the first k.
fn pass_edge(
    b: BoundingBox,
    sites: &[f64],
    s: SideName,
    p: Spot,
    q: Corner,
    to: usize,
    k: usize,
    slots: &mut [Spot],
) -> usize
    requires { (to ≤ 16) × (k + 2 ≤ 16) × Slotted slots.old }
    ensures { Edged (kept (side_at b sites.now s) (at_of p) q) to k slots.old result slots.new }
{
    let v = p.corner;
    let on = p.on;
    let here = within(b, s, v);
    let there = within(b, s, q);
    let at = to + k;
    if here {
        slots[at] = p;
        if there {
            return k + 1;
        }
        let w = Spot {
            corner: meet(b, sites, s, v, q, on),
            on: Carrier::Along(s),
        };
        slots[at + 1] = w;
        return k + 2;
    }
    if there {
        let w = Spot {
            corner: meet(b, sites, s, v, q, on),
            on: on,
        };
        slots[at] = w;
        return k + 1;
    }
    k
}

// The slot after i of a ring, and its first after the last.
fn next_slot(from: usize, count: usize, i: usize) -> usize
    requires { (i < count) × (from + count ≤ 32) }
    ensures { result ≡ next_slot from count i }
{
    if i + 1 < count {
        return from + i + 1;
    }
    from
}

// The ring by side s, into the other half.
fn pass_side(
    b: BoundingBox,
    sites: &[f64],
    s: SideName,
    from: usize,
    count: usize,
    slots: &mut [Spot],
) -> usize
    requires { AtHalf from × (count ≤ 16) × Slotted slots.old }
    ensures { PassedSide (side_at b sites.now s) from count slots.old result slots.new }
{
    let to = HALF - from;
    let mut k = 0;
    for i in 0..count {
        if HALF < k + 2 {
            return HALF + 1;
        }
        let p = slots[from + i];
        let q = corner_at(slots, next_slot(from, count, i));
        k = pass_edge(b, sites, s, p, q, to, k, slots);
    }
    k
}

// The ring by side s, where that does not leave it alone.
fn cut_side(b: BoundingBox, sites: &[f64], s: SideName, l: Lying, slots: &mut [Spot]) -> Lying
    requires { AtHalf l.from × Slotted slots.old }
    ensures { Cuts (cut_by (side_at b sites.now s)) l slots.old result slots.new }
{
    let from = l.from;
    let count = l.count;
    if HALF < count {
        return l;
    }
    if all_within(b, s, from, count, slots) {
        return l;
    }
    let k = pass_side(b, sites, s, from, count, slots);
    Lying {
        from: HALF - from,
        count: k,
    }
}

// By all four sides.
fn cut_four(b: BoundingBox, sites: &[f64], l: Lying, slots: &mut [Spot]) -> Lying
    requires { AtHalf l.from × Slotted slots.old }
    ensures { Cuts (cut_four b sites.now) l slots.old result slots.new }
{
    let t = cut_side(b, sites, SideName::Left, l, slots);
    let u = cut_side(b, sites, SideName::Top, t, slots);
    let v = cut_side(b, sites, SideName::Right, u, slots);
    cut_side(b, sites, SideName::Bottom, v, slots)
}

// One corner behind the first k, where there is room.
fn lay(k: usize, v: Spot, slots: &mut [Spot]) -> usize
    requires { Slotted slots.old }
    ensures { LaidOn (at_of v ∷ []) k slots.old result slots.new }
{
    if HALF <= k {
        return HALF + 1;
    }
    slots[k] = v;
    k + 1
}

// The ring's beginning at infinity, where it has one.
fn lay_ray(
    sites: &[f64],
    triangles: &[u32],
    halfedges: &[u32],
    centers: &[f64],
    t: u32,
    slots: &mut [Spot],
) -> usize
    requires { Slotted slots.old }
    ensures { LaidOn (ray_of sites.now triangles.now halfedges.now centers.now t) 0
        slots.old result slots.new }
{
    if on_hull(halfedges, wide(t)) {
        let v = Spot {
            corner: hull_end(sites, triangles, centers, t),
            on: bisector(triangles, wide(t)),
        };
        return lay(0, v, slots);
    }
    0
}

// The circumcenters of the whole walk from t, behind the first k.
fn lay_walk(
    triangles: &[u32],
    halfedges: &[u32],
    centers: &[f64],
    t: u32,
    k: usize,
    slots: &mut [Spot],
) -> SlotTrail
    requires { (length halfedges.now < EMPTY) × Slotted slots.old }
    ensures { LaidWalk triangles.now halfedges.now centers.now t k
        slots.old result slots.new }
{
    let mut count = k;
    let mut e = t;
    let mut last = t;
    for _ in 0..halfedges.len() {
        if halfedges.len() <= wide(e) {
            return SlotTrail {
                count: count,
                last: last,
            };
        }
        if HALF < count {
            return SlotTrail {
                count: count,
                last: t,
            };
        }
        count = lay(count, out_spot(triangles, centers, e), slots);
        last = e;
        e = turn_from(halfedges, t, e);
    }
    SlotTrail {
        count: count,
        last: last,
    }
}

// The ring's end at infinity after half-edge e, where it has one, behind the first k.
fn lay_far(
    sites: &[f64],
    triangles: &[u32],
    halfedges: &[u32],
    centers: &[f64],
    e: u32,
    k: usize,
    slots: &mut [Spot],
) -> usize
    requires { (e < EMPTY) × Slotted slots.old }
    ensures { LaidOn (far_of sites.now triangles.now halfedges.now centers.now e) k
        slots.old result slots.new }
{
    let o = next_halfedge(wide(e));
    if on_hull(halfedges, o) {
        let v = Spot {
            corner: hull_end(sites, triangles, centers, o as u32),
            on: Carrier::Infinity,
        };
        return lay(k, v, slots);
    }
    k
}

// The ring of the site whose walk begins at t, in the first half.
fn lay_ring(
    sites: &[f64],
    triangles: &[u32],
    halfedges: &[u32],
    centers: &[f64],
    t: u32,
    slots: &mut [Spot],
) -> usize
    requires { (length halfedges.now < EMPTY) × Slotted slots.old }
    ensures { LaidOn (site_ring sites.now triangles.now halfedges.now centers.now t) 0
        slots.old result slots.new }
{
    if halfedges.len() <= wide(t) {
        return 0;
    }
    let k = lay_ray(sites, triangles, halfedges, centers, t, slots);
    let w = lay_walk(triangles, halfedges, centers, t, k, slots);
    lay_far(sites, triangles, halfedges, centers, w.last, w.count, slots)
}

// The ring laid and cut.
pub fn cut_laid(
    b: BoundingBox,
    sites: &[f64],
    triangles: &[u32],
    halfedges: &[u32],
    centers: &[f64],
    t: u32,
    slots: &mut [Spot],
) -> Lying
    requires { (length halfedges.now < EMPTY) × Slotted slots.old }
    ensures { AtHalf result.from × (result.count ≤ 16 → ring_in slots.new result.from result.count ≡
        cut_four b sites.now (site_ring sites.now triangles.now halfedges.now centers.now t)) }
{
    let k = lay_ring(sites, triangles, halfedges, centers, t, slots);
    cut_four(b, sites, Lying { from: 0, count: k }, slots)
}

// The corners of a ring in slots, as the pen takes them.
pub fn ink_slots(
    b: BoundingBox,
    centers: usize,
    from: usize,
    count: usize,
    start: Pen,
    slots: &[Spot],
    vertices: &mut [f64],
    indexes: &mut [u32],
) -> Pen
    requires { (from + count ≤ 32) × Slotted slots.now
        × Ready centers (page start vertices.old indexes.old) (feed_all (ink_at b centers) (page start vertices.old indexes.old) (ring_in slots.now from count)) }
    ensures { page result vertices.new indexes.new ≡ feed_all (ink_at b centers) (page start vertices.old indexes.old)
        (ring_in slots.now from count) }
{
    let mut pen = start;
    for i in 0..count {
        let v = slots[from + i];
        pen = ink_spot(b, centers, pen, v, vertices, indexes);
    }
    pen
}
