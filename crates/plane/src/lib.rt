// Points, circumcenters, the box and how lines and rays meet it: the plane part of utils.rs, and bounding_box.rs.

#![tactic(auto)]

pub mod boxes;
pub mod centers;
pub mod given;
pub mod lines;
pub mod points;
pub mod rays;
pub mod sides;

ghost use Rattle.std.specs.Prelude.{◌≡◌, cond};

fn choose(c: bool, x: f64, y: f64) -> f64
    ensures { result ≡ cond c x y }
{
    if c { x } else { y }
}
