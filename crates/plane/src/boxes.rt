// bounding_box.rs, the box: its edges, size and corners, and the rule on it.
ghost use Rattle.std.specs.Prelude.{◌≡◌, ◌<◌};
ghost use Rattle.plane.specs.boxes.Box.{made_of, width_of, height_of, corners_of};
ghost use Rattle.plane.specs.boxes.Rules.{ok_box};

use crate::points::{Point, site_ok};

#[derive(Clone, Copy)]
pub struct BoundingBox {
    pub center: Point,
    pub left: f64,
    pub top: f64,
    pub right: f64,
    pub bottom: f64,
}

pub fn new(center: Point, width: f64, height: f64) -> BoundingBox
    ensures { result ≡ made_of center width height }
{
    BoundingBox {
        center: center,
        left: center.x - width / 2.0,
        top: center.y - height / 2.0,
        right: center.x + width / 2.0,
        bottom: center.y + height / 2.0,
    }
}

pub fn box_ok(center: Point, width: f64, height: f64) -> bool
    ensures { result ≡ ok_box center width height }
{
    let b = new(center, width, height);
    let w = (width > 0.0) & (width <= base::numbers::LARGE);
    let h = (height > 0.0) & (height <= base::numbers::LARGE);
    site_ok(center) & w & h & ((b.left < b.right) & (b.top < b.bottom))
}

pub fn width(b: BoundingBox) -> f64
    ensures { result ≡ width_of b }
{
    b.right - b.left
}

pub fn height(b: BoundingBox) -> f64
    ensures { result ≡ height_of b }
{
    b.bottom - b.top
}

// Top left, bottom left, bottom right, top right.
pub fn corners(b: BoundingBox) -> [Point; 4]
    ensures { result ≡ corners_of b }
{
    let l = b.left;
    let r = b.right;
    let t = b.top;
    let m = b.bottom;
    [
        Point { x: l, y: t },
        Point { x: l, y: m },
        Point { x: r, y: m },
        Point { x: r, y: t },
    ]
}
