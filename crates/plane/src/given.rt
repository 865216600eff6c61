// A box as a call is given it: by its center and size, or by its four edges; with what rule 3 says of it. What comes after reads the record alone.
ghost use Rattle.std.specs.Prelude.{◌≡◌};
ghost use Rattle.plane.specs.points.Plane.{at};
ghost use Rattle.plane.specs.given.Given.{edges_of, ok_span, ok_edges, by_size, by_edges};
ghost use Rattle.plane.specs.given.Tried.{tried_by};

use crate::boxes::{BoundingBox, box_ok};
use crate::points::Point;
use base::refusal::Refusal;

// sound: the box keeps rule 3.
#[derive(Clone, Copy)]
pub struct Given {
    pub sound: bool,
    pub bounds: BoundingBox,
}

// The box of the center (x, y), this width and this height.
pub fn by_size(x: f64, y: f64, width: f64, height: f64) -> Given
    ensures { result ≡ by_size (at x y) width height }
{
    let center = Point { x: x, y: y };
    let sound = box_ok(center, width, height);
    let bounds = crate::boxes::new(center, width, height);
    Given { sound, bounds }
}

// Two edges across from each other.
fn span_ok(low: f64, high: f64) -> bool
    ensures { result ≡ ok_span low high }
{
    (root::magnitude(low) <= base::numbers::EDGE)
        & (root::magnitude(high) <= base::numbers::EDGE)
        & (low < high)
}

fn edges_ok(left: f64, top: f64, right: f64, bottom: f64) -> bool
    ensures { result ≡ ok_edges left top right bottom }
{
    span_ok(left, right) & span_ok(top, bottom)
}

// The edges as they are given; the center is half way.
fn from_edges(left: f64, top: f64, right: f64, bottom: f64) -> BoundingBox
    ensures { result ≡ edges_of left top right bottom }
{
    BoundingBox {
        center: Point {
            x: left + (right - left) / 2.0,
            y: top + (bottom - top) / 2.0,
        },
        left: left,
        top: top,
        right: right,
        bottom: bottom,
    }
}

// The box of these edges.
pub fn by_edges(left: f64, top: f64, right: f64, bottom: f64) -> Given
    ensures { result ≡ by_edges left top right bottom }
{
    let sound = edges_ok(left, top, right, bottom);
    let bounds = from_edges(left, top, right, bottom);
    Given { sound, bounds }
}

// Rule 3 of the box, then rule 6 of the points of a call.
pub fn tried(given: Given, points: bool) -> Result<(), Refusal>
    ensures { result ≡ tried_by given.sound points }
{
    if !given.sound {
        return Err(Refusal::Box);
    }
    if !points {
        return Err(Refusal::Coordinate);
    }
    Ok(())
}
