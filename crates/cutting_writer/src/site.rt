// The ring of a site walked into the four sides, and so its piece's places into the slices.
ghost use Rattle.std.specs.Prelude.{◌≡◌, map, ◌*◌, ◌≤◌, ◌<◌, length};
ghost use Rattle.base.specs.numbers.Numbers.{EMPTY};
ghost use Rattle.mesh.specs.Mesh.{turn_of, whole_of};
ghost use Rattle.cutting.specs.cuts.Stream.{feed_all};
ghost use Rattle.cutting.specs.rings.Names.{on_hull};
ghost use Rattle.cutting.specs.whole.Whole.{bisector_of};
ghost use Rattle.cutting.specs.pen.Pen.{page};
ghost use Rattle.cutting.specs.pen.Room.{Ready};
ghost use Rattle.cutting_writer.specs.stream.Stages.{at_of, left_of, ink_at, feed_left, cut_four, opened};
ghost use Rattle.cutting_writer.specs.site.Ring.{out_at, ray_of, far_of, last_or, site_ring};
ghost use Rattle.cutting_writer.specs.site.Walked.{OneMore, Walkable, WalkedAll, Begun};

use crate::stream::{LeftStage, Spot, close, feed_left, open};
use base::numbers::{EMPTY, wide};
use cutting::border::{entry_at, hull_end};
use cutting::corner::{Carrier, circle_center};
use cutting::meet::site_at;
use cutting::pen::Pen;
use mesh::next_halfedge;
use plane::boxes::BoundingBox;

// Where the walk is: the four sides, the half-edge that comes, and the last one that came.
#[derive(Clone, Copy)]
pub struct Walk {
    pub stage: LeftStage,
    pub e: u32,
    pub last: u32,
}

// The bisector of the sites that half-edge o joins, the lower number first.
pub fn bisector(triangles: &[u32], o: usize) -> Carrier
    requires { o ≤ EMPTY }
    ensures { result ≡ bisector_of triangles.now o }
{
    let a = entry_at(triangles, o);
    let z = entry_at(triangles, next_halfedge(o));
    if a < z {
        return Carrier::Bisector(a, z);
    }
    Carrier::Bisector(z, a)
}

pub fn out_spot(triangles: &[u32], centers: &[f64], e: u32) -> Spot
    requires { e < EMPTY }
    ensures { at_of result ≡ out_at triangles.now centers.now e }
{
    let q = e / 3;
    Spot {
        corner: circle_center(site_at(centers, q), q),
        on: bisector(triangles, next_halfedge(wide(e))),
    }
}

// Half-edge o has no pair.
pub fn on_hull(halfedges: &[u32], o: usize) -> bool
    ensures { result ≡ on_hull halfedges.now o }
{
    halfedges.len() <= wide(entry_at(halfedges, o))
}

// The half-edge after e round its site; none where that is t again.
pub fn turn_from(halfedges: &[u32], t: u32, e: u32) -> u32
    ensures { result ≡ turn_of halfedges.now t e }
{
    let a = entry_at(halfedges, next_halfedge(wide(e)));
    if a == t {
        return EMPTY;
    }
    a
}

// The ring begins at infinity where half-edge t has no pair.
fn enter(
    b: BoundingBox,
    sites: &[f64],
    triangles: &[u32],
    halfedges: &[u32],
    centers: usize,
    t: u32,
    stage: LeftStage,
    vertices: &mut [f64],
    indexes: &mut [u32],
) -> LeftStage
    requires { Ready centers (left_of stage vertices.old indexes.old).next.next.next.next
        (feed_all (feed_left b sites.now centers) (left_of stage vertices.old indexes.old) (ray_of sites.now triangles.now halfedges.now vertices.old t)).next.next.next.next }
    ensures { left_of result vertices.new indexes.new ≡ feed_all (feed_left b sites.now centers) (left_of stage vertices.old indexes.old)
        (ray_of sites.now triangles.now halfedges.now vertices.old t) }
{
    if on_hull(halfedges, wide(t)) {
        let v = Spot {
            corner: hull_end(sites, triangles, vertices, t),
            on: bisector(triangles, wide(t)),
        };
        return feed_left(b, sites, centers, stage, v, vertices, indexes);
    }
    stage
}

// It ends there where the half-edge after e has none.
fn leave(
    b: BoundingBox,
    sites: &[f64],
    triangles: &[u32],
    halfedges: &[u32],
    centers: usize,
    e: u32,
    stage: LeftStage,
    vertices: &mut [f64],
    indexes: &mut [u32],
) -> LeftStage
    requires { (e < EMPTY) × Ready centers (left_of stage vertices.old indexes.old).next.next.next.next
        (feed_all (feed_left b sites.now centers) (left_of stage vertices.old indexes.old) (far_of sites.now triangles.now halfedges.now vertices.old e)).next.next.next.next }
    ensures { left_of result vertices.new indexes.new ≡ feed_all (feed_left b sites.now centers) (left_of stage vertices.old indexes.old)
        (far_of sites.now triangles.now halfedges.now vertices.old e) }
{
    let o = next_halfedge(wide(e));
    if on_hull(halfedges, o) {
        let v = Spot {
            corner: hull_end(sites, triangles, vertices, o as u32),
            on: Carrier::Infinity,
        };
        return feed_left(b, sites, centers, stage, v, vertices, indexes);
    }
    stage
}

// One half-edge more: its circumcenter, then the next.
fn walk_on(
    b: BoundingBox,
    sites: &[f64],
    triangles: &[u32],
    halfedges: &[u32],
    centers: usize,
    t: u32,
    w: Walk,
    vertices: &mut [f64],
    indexes: &mut [u32],
) -> Walk
    requires { (w.e < EMPTY) × Ready centers (left_of w.stage vertices.old indexes.old).next.next.next.next
        (feed_left b sites.now centers (left_of w.stage vertices.old indexes.old) (out_at triangles.now vertices.old w.e)).next.next.next.next }
    ensures { OneMore b sites.now triangles.now halfedges.now centers t w vertices.old indexes.old
        result vertices.new indexes.new }
{
    let e = w.e;
    let s = w.stage;
    let v = out_spot(triangles, vertices, e);
    Walk {
        stage: feed_left(b, sites, centers, s, v, vertices, indexes),
        e: turn_from(halfedges, t, e),
        last: e,
    }
}

// The whole walk from t.
fn walk_whole(
    b: BoundingBox,
    sites: &[f64],
    triangles: &[u32],
    halfedges: &[u32],
    centers: usize,
    t: u32,
    stage: LeftStage,
    vertices: &mut [f64],
    indexes: &mut [u32],
) -> Walk
    requires { Walkable b sites.now triangles.now halfedges.now centers t (left_of stage vertices.old indexes.old) vertices.old }
    ensures { WalkedAll b sites.now triangles.now halfedges.now centers t (left_of stage vertices.old indexes.old)
        vertices.old result vertices.new indexes.new }
{
    let mut w = Walk {
        stage: stage,
        e: t,
        last: t,
    };
    for _ in 0..halfedges.len() {
        if wide(w.e) >= halfedges.len() {
            return w;
        }
        w = walk_on(
            b, sites, triangles, halfedges, centers, t, w, vertices, indexes,
        );
    }
    w
}

// From its beginning up to the walk's last half-edge.
fn walk_in(
    b: BoundingBox,
    sites: &[f64],
    triangles: &[u32],
    halfedges: &[u32],
    centers: usize,
    t: u32,
    pen: Pen,
    vertices: &mut [f64],
    indexes: &mut [u32],
) -> Walk
    requires { Begun b sites.now triangles.now halfedges.now centers t (page pen vertices.old indexes.old) (left_of (opened pen) vertices.old indexes.old) }
    ensures { (left_of result.stage vertices.new indexes.new ≡ feed_all (feed_left b sites.now centers)
        (feed_all (feed_left b sites.now centers) (left_of (opened pen) vertices.old indexes.old)
        (ray_of sites.now triangles.now halfedges.now vertices.old t))
        (map (out_at triangles.now vertices.old) (whole_of halfedges.now t))) × (result.last ≡ last_or t (whole_of halfedges.now t)) }
{
    let s = enter(
        b,
        sites,
        triangles,
        halfedges,
        centers,
        t,
        open(pen),
        vertices,
        indexes,
    );
    walk_whole(
        b, sites, triangles, halfedges, centers, t, s, vertices, indexes,
    )
}

// The ring of the site whose walk begins at t, cut by the four sides and written.
pub fn cut_by_sides(
    b: BoundingBox,
    sites: &[f64],
    triangles: &[u32],
    halfedges: &[u32],
    centers: usize,
    t: u32,
    pen: Pen,
    vertices: &mut [f64],
    indexes: &mut [u32],
) -> Pen
    requires { (length halfedges.now ≤ 3 * centers) × (length halfedges.now < EMPTY) × Ready centers (page pen vertices.old indexes.old)
        (feed_all (ink_at b centers) (page pen vertices.old indexes.old) (cut_four b sites.now (site_ring sites.now triangles.now halfedges.now vertices.old t))) }
    ensures { page result vertices.new indexes.new ≡ feed_all (ink_at b centers) (page pen vertices.old indexes.old)
        (cut_four b sites.now (site_ring sites.now triangles.now halfedges.now vertices.old t)) }
{
    if halfedges.len() <= wide(t) {
        return pen;
    }
    let w = walk_in(
        b, sites, triangles, halfedges, centers, t, pen, vertices, indexes,
    );
    let s = w.stage;
    let u = leave(
        b, sites, triangles, halfedges, centers, w.last, s, vertices, indexes,
    );
    close(b, sites, centers, u, vertices, indexes)
}
