// bounding_box.rs, a point beside the box: whether it is inside, and the side that it is on.
ghost use Rattle.std.specs.Prelude.{◌≡◌};
ghost use Rattle.plane.specs.sides.Sides.{inside_of, first_side, which_of, exclusive_of};

use crate::boxes::BoundingBox;
use crate::points::{Point, abs_diff_eq};

pub fn is_inside(b: BoundingBox, p: Point) -> bool
    ensures { result ≡ inside_of b p }
{
    (p.x >= b.left) & (p.x <= b.right) & ((p.y >= b.top) & (p.y <= b.bottom))
}

// No side.
pub const NO_SIDE: u32 = 4;

fn first_side(top: bool, bottom: bool, right: bool, left: bool) -> u32
    ensures { result ≡ first_side top bottom right left }
{
    if top {
        0
    } else if bottom {
        2
    } else if right {
        3
    } else if left {
        1
    } else {
        NO_SIDE
    }
}

pub fn which_edge(b: BoundingBox, p: Point) -> u32
    ensures { result ≡ which_of b p }
{
    first_side(
        abs_diff_eq(p.y, b.top),
        abs_diff_eq(p.y, b.bottom),
        abs_diff_eq(p.x, b.right),
        abs_diff_eq(p.x, b.left),
    )
}

// Inside, and on no side.
pub fn is_exclusively_inside(b: BoundingBox, p: Point) -> bool
    ensures { result ≡ exclusive_of b p }
{
    is_inside(b, p) & (which_edge(b, p) == NO_SIDE)
}
