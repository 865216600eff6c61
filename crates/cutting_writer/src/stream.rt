// A ring cut by the four sides of a box as it comes: each side keeps the ring's first corner and the last one that came, and hands on what is left of each edge; the last hands
// on to the pen. Nothing is stored but the piece.
ghost use Rattle.std.specs.Prelude.{◌≡◌, List, ℕ, Float};
ghost use Rattle.plane.specs.declared.boxes.BoundingBox.{BoundingBox};
ghost use Rattle.cutting.specs.cuts.Rings.{At};
ghost use Rattle.cutting.specs.cuts.Cut.{kept};
ghost use Rattle.cutting.specs.cuts.Stream.{given, held_after, feed_all, feed, closed};
ghost use Rattle.cutting.specs.pen.Pen.{Page, page};
ghost use Rattle.cutting.specs.pen.Room.{Ready, Later, later_same, later_on};
ghost use Rattle.cutting.specs.declared.corner.SideName.{SideName};
ghost use Rattle.cutting.specs.declared.corner.SideName.TheVariants.{Left, Top, Right, Bottom};
ghost use Rattle.cutting.specs.declared.corner.Corner.{Corner};
ghost use Rattle.cutting.specs.declared.corner.Carrier.{Carrier};
ghost use Rattle.cutting_writer.specs.stream.Stages.{at_of, list_of, held_of, side_at, ink_at, Kept, stage_of, left_of, feed_left, closed_all, opened};
ghost use Rattle.cutting_writer.specs.stream.laws.Stages.{Grows, ink_grows, stage_grows, closed_grows};

use cutting::corner::{Carrier, Corner, SideName, within};
use cutting::meet::meet;
use cutting::pen::{Pen, ink};
use plane::boxes::BoundingBox;

// A corner, and what the edge from it on lies on.
#[derive(Clone, Copy)]
pub struct Spot {
    pub corner: Corner,
    pub on: Carrier,
}

// What is left of an edge.
#[derive(Clone, Copy)]
pub enum Part {
    None,
    One(Spot),
    Two(Spot, Spot),
}

// Where any corner came: the first of them, and the last.
#[derive(Clone, Copy)]
pub struct Held {
    pub first: Corner,
    pub last: Spot,
}

// One of the four sides, as a type: the code of each stage is made for its own side.
pub trait Side: Copy {
    const NAME: SideName;

    ghost NAME: { SideName };
}

#[derive(Clone, Copy)]
pub struct LeftSide;

impl Side for LeftSide {
    const NAME: SideName = SideName::Left;

    ghost NAME = { Left };
}

#[derive(Clone, Copy)]
pub struct TopSide;

impl Side for TopSide {
    const NAME: SideName = SideName::Top;

    ghost NAME = { Top };
}

#[derive(Clone, Copy)]
pub struct RightSide;

impl Side for RightSide {
    const NAME: SideName = SideName::Right;

    ghost NAME = { Right };
}

#[derive(Clone, Copy)]
pub struct BottomSide;

impl Side for BottomSide {
    const NAME: SideName = SideName::Bottom;

    ghost NAME = { Bottom };
}

// What takes the corners of a ring one after the other: the pen, or a side before another taker.
pub trait Taker: Copy {
    // What it is with both slices, as the definitions have it, and the pen's page in that.
    ghost Shown: { Type 0 };

    ghost shown: { Self → List Float → List ℕ → Shown };

    ghost page_in: { Shown → Page };

    ghost fed: { BoundingBox → List Float → ℕ → Shown → At Corner Carrier → Shown };

    ghost ended: { BoundingBox → List Float → ℕ → Shown → Page };

    // A corner.
    fn feed(
        self,
        b: BoundingBox,
        sites: &[f64],
        centers: usize,
        v: Spot,
        vertices: &mut [f64],
        indexes: &mut [u32],
    ) -> Self
        requires { Ready centers (page_in (shown self vertices.old indexes.old)) (page_in (fed b sites.now centers (shown self vertices.old indexes.old) (at_of v))) }
        ensures { shown result vertices.new indexes.new ≡ fed b sites.now centers (shown self vertices.old indexes.old) (at_of v) };

    // The end of the ring: each side in turn hands on what is left of its last edge, back to the first corner.
    fn close(
        self,
        b: BoundingBox,
        sites: &[f64],
        centers: usize,
        vertices: &mut [f64],
        indexes: &mut [u32],
    ) -> Pen
        requires { Ready centers (page_in (shown self vertices.old indexes.old)) (ended b sites.now centers (shown self vertices.old indexes.old)) }
        ensures { page result vertices.new indexes.new ≡ ended b sites.now centers (shown self vertices.old indexes.old) };

    // Nothing that is counted falls.
    ghost feeding_grows: { (b : BoundingBox) (sites : List Float) (centers : ℕ) → Grows page_in (fed b sites centers) };

    ghost ending_grows: { (b : BoundingBox) (sites : List Float) (centers : ℕ) (x : Shown) → Later (page_in x) (ended b sites centers x) };
}

// A side: what it holds, and what it hands on to.
#[derive(Clone, Copy)]
pub struct Stage<S, N> {
    pub side: S,
    pub held: Option<Held>,
    pub next: N,
}

pub type LeftStage = Stage<LeftSide, Stage<TopSide, Stage<RightSide, Stage<BottomSide, Pen>>>>;

// What a side leaves of the edge from p to q.
fn keep(b: BoundingBox, sites: &[f64], s: SideName, p: Spot, q: Corner) -> Part
    ensures { list_of result ≡ kept (side_at b sites.now s) (at_of p) q }
{
    let v = p.corner;
    let on = p.on;
    let a = within(b, s, v);
    let c = within(b, s, q);
    if a {
        if c {
            return Part::One(p);
        }
        return Part::Two(
            p,
            Spot {
                corner: meet(b, sites, s, v, q, on),
                on: Carrier::Along(s),
            },
        );
    }
    if c {
        return Part::One(Spot {
            corner: meet(b, sites, s, v, q, on),
            on: on,
        });
    }
    Part::None
}

// What is left of the edge from the last corner to q; nothing where none came.
fn give(b: BoundingBox, sites: &[f64], s: SideName, held: Option<Held>, q: Corner) -> Part
    ensures { list_of result ≡ given (side_at b sites.now s) (held_of held) q }
{
    match held {
        Some(h) => keep(b, sites, s, h.last, q),
        None => Part::None,
    }
}

// What is left of the last edge, back to the first corner.
fn give_back(b: BoundingBox, sites: &[f64], s: SideName, held: Option<Held>) -> Part
    ensures { list_of result ≡ given (side_at b sites.now s) (held_of held) (held_of held).first }
{
    match held {
        Some(h) => keep(b, sites, s, h.last, h.first),
        None => Part::None,
    }
}

fn hold(held: Option<Held>, v: Spot) -> Option<Held>
    ensures { held_of result ≡ held_after (held_of held) (at_of v) }
{
    let first = match held {
        Some(h) => h.first,
        None => v.corner,
    };
    Some(Held { first, last: v })
}

// The pen takes a corner.
pub fn ink_spot(
    b: BoundingBox,
    centers: usize,
    pen: Pen,
    v: Spot,
    vertices: &mut [f64],
    indexes: &mut [u32],
) -> Pen
    requires { Ready centers (page pen vertices.old indexes.old) (ink_at b centers (page pen vertices.old indexes.old) (at_of v)) }
    ensures { page result vertices.new indexes.new ≡ ink_at b centers (page pen vertices.old indexes.old) (at_of v) }
{
    let q = v.corner;
    let p = q.place;
    ink(b, centers, pen, p, q.number, vertices, indexes)
}

impl Taker for Pen {
    ghost Shown = { Page };

    ghost shown = { page };

    ghost page_in = { λ g. g };

    ghost fed = { λ b sites centers. ink_at b centers };

    ghost ended = { λ b sites centers g. g };

    ghost feeding_grows = { ink_grows };

    ghost ending_grows = { λ b sites centers. later_same };

    fn feed(
        self,
        b: BoundingBox,
        _sites: &[f64],
        centers: usize,
        v: Spot,
        vertices: &mut [f64],
        indexes: &mut [u32],
    ) -> Pen {
        ink_spot(b, centers, self, v, vertices, indexes)
    }

    fn close(
        self,
        _b: BoundingBox,
        _sites: &[f64],
        _centers: usize,
        _vertices: &mut [f64],
        _indexes: &mut [u32],
    ) -> Pen {
        self
    }
}

// What is left of an edge goes on to t.
fn pass<N: Taker>(
    b: BoundingBox,
    sites: &[f64],
    centers: usize,
    t: N,
    part: Part,
    vertices: &mut [f64],
    indexes: &mut [u32],
) -> N
    requires { Ready centers (N.page_in (N.shown t vertices.old indexes.old))
        (N.page_in (feed_all (N.fed b sites.now centers) (N.shown t vertices.old indexes.old) (list_of part))) }
    ensures { N.shown result vertices.new indexes.new ≡ feed_all (N.fed b sites.now centers) (N.shown t vertices.old indexes.old) (list_of part) }
{
    match part {
        Part::None => t,
        Part::One(v) => t.feed(b, sites, centers, v, vertices, indexes),
        Part::Two(v, w) => {
            let u = t.feed(b, sites, centers, v, vertices, indexes);
            u.feed(b, sites, centers, w, vertices, indexes)
        }
    }
}

impl<S: Side, N: Taker> Taker for Stage<S, N> {
    ghost Shown = { Kept N.Shown };

    ghost shown = { λ t v ix. stage_of t.held (N.shown t.next v ix) };

    ghost page_in = { λ t. N.page_in t.next };

    ghost fed = { λ b sites centers. feed (side_at b sites S.NAME) (N.fed b sites centers) };

    ghost ended = { λ b sites centers t. N.ended b sites centers (closed (side_at b sites S.NAME) (N.fed b sites centers) t) };

    ghost feeding_grows = { λ b sites centers. stage_grows N.page_in (side_at b sites S.NAME) (N.fed b sites centers) (N.feeding_grows b sites centers) };

    ghost ending_grows = { λ b sites centers t. later_on
        (closed_grows N.page_in (side_at b sites S.NAME) (N.fed b sites centers) (N.feeding_grows b sites centers) t)
        (N.ending_grows b sites centers (closed (side_at b sites S.NAME) (N.fed b sites centers) t)) };

    fn feed(
        self,
        b: BoundingBox,
        sites: &[f64],
        centers: usize,
        v: Spot,
        vertices: &mut [f64],
        indexes: &mut [u32],
    ) -> Stage<S, N> {
        let part = give(b, sites, S::NAME, self.held, v.corner);
        Stage {
            side: self.side,
            held: hold(self.held, v),
            next: pass(b, sites, centers, self.next, part, vertices, indexes),
        }
    }

    fn close(
        self,
        b: BoundingBox,
        sites: &[f64],
        centers: usize,
        vertices: &mut [f64],
        indexes: &mut [u32],
    ) -> Pen {
        let part = give_back(b, sites, S::NAME, self.held);
        let t = pass(b, sites, centers, self.next, part, vertices, indexes);
        t.close(b, sites, centers, vertices, indexes)
    }
}

// To the left side: a corner.
pub fn feed_left(
    b: BoundingBox,
    sites: &[f64],
    centers: usize,
    t: LeftStage,
    v: Spot,
    vertices: &mut [f64],
    indexes: &mut [u32],
) -> LeftStage
    requires { Ready centers (left_of t vertices.old indexes.old).next.next.next.next
        (feed_left b sites.now centers (left_of t vertices.old indexes.old) (at_of v)).next.next.next.next }
    ensures { left_of result vertices.new indexes.new ≡ feed_left b sites.now centers (left_of t vertices.old indexes.old) (at_of v) }
{
    t.feed(b, sites, centers, v, vertices, indexes)
}

// All four sides: the ring is at its end.
pub fn close(
    b: BoundingBox,
    sites: &[f64],
    centers: usize,
    t: LeftStage,
    vertices: &mut [f64],
    indexes: &mut [u32],
) -> Pen
    requires { Ready centers (left_of t vertices.old indexes.old).next.next.next.next (closed_all b sites.now centers (left_of t vertices.old indexes.old)) }
    ensures { page result vertices.new indexes.new ≡ closed_all b sites.now centers (left_of t vertices.old indexes.old) }
{
    t.close(b, sites, centers, vertices, indexes)
}

// The four sides before any corner came.
pub fn open(pen: Pen) -> LeftStage
    ensures { result ≡ opened pen }
{
    Stage {
        side: LeftSide,
        held: None,
        next: Stage {
            side: TopSide,
            held: None,
            next: Stage {
                side: RightSide,
                held: None,
                next: Stage {
                    side: BottomSide,
                    held: None,
                    next: pen,
                },
            },
        },
    }
}
