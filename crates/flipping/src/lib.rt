// What flipping an edge is, and that the flipped mesh is accepted again, is in specs/. Here is the step back in a triangle.

#![tactic(auto)]

pub mod call;
pub mod rule;
pub mod stores;

ghost use Rattle.std.specs.Prelude.{◌≡◌, ◌<◌};
ghost use Rattle.flipping.specs.Flip.{before_of};

// The half-edge before e in its triangle.
pub fn before(e: usize) -> usize
    requires { e < 1152921504606846976 }
    ensures { result ≡ before_of e }
{
    let o = mesh::next_halfedge(e);
    mesh::next_halfedge(o)
}
