// Rule 25: whether the border turns exactly once, by the corners at infinity of the hull's half-edges in order.
ghost use Rattle.std.specs.Prelude.{◌≡◌, ◌≤◌, ◌<◌, length, get_or};
ghost use Rattle.base.specs.refusal.Number.{answer_number};
ghost use Rattle.ring_area.specs.lowest.Lowest.{any_below};
ghost use Rattle.cutting.specs.cuts.Step.{passed_by};
ghost use Rattle.cutting.specs.border.Border.{normal_of, toward_of, hull_end, directed, arrives_at, undirected_at, turned_by, turns_after, turns_to, once_of, border_number};

use crate::corner::{Corner, SideName, far_at, within};
use crate::meet::{site_at, upward};
use base::numbers::wide;
use base::refusal::Refusal;
use mesh::next_halfedge;
use plane::boxes::BoundingBox;
use plane::points::Point;

// How often the border comes in over the upper end of the left side, and how often it goes out there.
#[derive(Clone, Copy)]
pub struct Turns {
    pub comes: usize,
    pub goes: usize,
}

// The entry at place k of a list, and 0 past its end.
pub fn entry_at(list: &[u32], k: usize) -> u32
    ensures { result ≡ get_or list.now k 0 }
{
    if k < list.len() {
        return list[k];
    }
    0
}

fn normal(a: Point, z: Point) -> Point
    ensures { result ≡ normal_of a z }
{
    Point {
        x: a.y - z.y,
        y: z.x - a.x,
    }
}

// The direction outward of half-edge o.
fn toward(sites: &[f64], triangles: &[u32], o: u32) -> Point
    ensures { result ≡ toward_of sites.now triangles.now o }
{
    let e = wide(o);
    let a = entry_at(triangles, e);
    let z = entry_at(triangles, next_halfedge(e));
    normal(site_at(sites, a), site_at(sites, z))
}

pub fn hull_end(sites: &[f64], triangles: &[u32], centers: &[f64], o: u32) -> Corner
    ensures { result ≡ hull_end sites.now triangles.now centers.now o }
{
    far_at(site_at(centers, o / 3), toward(sites, triangles, o))
}

fn is_directed(d: Point) -> bool
    ensures { result ≡ directed d }
{
    let x = d.x;
    let y = d.y;
    (x < 0.0) | ((y < 0.0) | ((0.0 < x) | (0.0 < y)))
}

// The half-edge on the hull that ends at place i, by the leftmost table.
fn arrives(hull: &[u32], table: &[u32], i: usize) -> u32
    ensures { result ≡ arrives_at table.now hull.now i }
{
    entry_at(table, wide(entry_at(hull, i)))
}

fn is_undirected(sites: &[f64], triangles: &[u32], hull: &[u32], table: &[u32], i: usize) -> bool
    ensures { result ≡ undirected_at sites.now triangles.now hull.now table.now i }
{
    !is_directed(toward(sites, triangles, arrives(hull, table, i)))
}

// Whether a half-edge of the hull has no direction.
fn any_undirected(sites: &[f64], triangles: &[u32], hull: &[u32], table: &[u32]) -> bool
    ensures { result ≡ any_below (undirected_at sites.now triangles.now hull.now table.now) (length hull.now) }
{
    (0..hull.len()).any(|i| is_undirected(sites, triangles, hull, table, i))
}

fn passed(to: bool, from: bool, there: bool) -> usize
    ensures { (result ≡ passed_by to from there) × (result ≤ 1) }
{
    if to {
        if from {
            0
        } else if there {
            1
        } else {
            0
        }
    } else {
        0
    }
}

// The turns with those over the edge at infinity from p to q.
fn turned(b: BoundingBox, t: Turns, p: Corner, q: Corner) -> Turns
    requires { (t.comes < 18446744073709551615) × (t.goes < 18446744073709551615) }
    ensures { result ≡ turned_by b t p q }
{
    let here = within(b, SideName::Left, p);
    let there = within(b, SideName::Left, q);
    let up = upward(p, q);
    let comes = t.comes;
    let goes = t.goes;
    let a = passed(there, here, up);
    let z = passed(here, there, up);
    Turns {
        comes: comes + a,
        goes: goes + z,
    }
}

fn turned_at(
    b: BoundingBox,
    sites: &[f64],
    triangles: &[u32],
    hull: &[u32],
    table: &[u32],
    centers: &[f64],
    t: Turns,
    i: usize,
) -> Turns
    requires { (t.comes < 18446744073709551615) × (t.goes < 18446744073709551615) }
    ensures { result ≡ turns_after b sites.now triangles.now hull.now table.now centers.now t i }
{
    let o = arrives(hull, table, i);
    let next = entry_at(table, wide(entry_at(triangles, wide(o))));
    turned(
        b,
        t,
        hull_end(sites, triangles, centers, o),
        hull_end(sites, triangles, centers, next),
    )
}

// The turns of the whole border.
fn border_turns(
    b: BoundingBox,
    sites: &[f64],
    triangles: &[u32],
    hull: &[u32],
    table: &[u32],
    centers: &[f64],
) -> Turns
    ensures { result ≡ turns_to b sites.now triangles.now hull.now table.now centers.now (length hull.now) }
{
    let mut t = Turns { comes: 0, goes: 0 };
    for i in 0..hull.len() {
        t = turned_at(b, sites, triangles, hull, table, centers, t, i);
    }
    t
}

fn once(t: Turns) -> Result<(), Refusal>
    requires { t.goes < 18446744073709551615 }
    ensures { answer_number result ≡ once_of t }
{
    if t.comes == t.goes + 1 {
        Ok(())
    } else {
        Err(Refusal::Border)
    }
}

// Each hull edge has a direction, and the border turns exactly once.
pub fn check_border(
    b: BoundingBox,
    sites: &[f64],
    triangles: &[u32],
    hull: &[u32],
    table: &[u32],
    centers: &[f64],
) -> Result<(), Refusal>
    ensures { answer_number result ≡ border_number b sites.now triangles.now hull.now table.now centers.now }
{
    if any_undirected(sites, triangles, hull, table) {
        return Err(Refusal::Border);
    }
    once(border_turns(b, sites, triangles, hull, table, centers))
}
