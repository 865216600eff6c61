// iterator.rs: a site's neighbours over the lent slices, a step at a time.
ghost use Rattle.std.specs.Prelude.{◌≡◌, ◌%◌, ◌<◌, length};
ghost use Rattle.base.specs.numbers.Numbers.{EMPTY};
ghost use Rattle.mesh.specs.Mesh.{whole_of, Paired};
ghost use Rattle.walks.specs.neighbours.Neighbours.{starts_of};
ghost use Rattle.walks.specs.neighbours.Cursor.{last_step, step_of, is_end};
ghost use Rattle.walks.specs.neighbours.Fills.{Fills};

use base::numbers::EMPTY;
use mesh::Walked;

// Where the walk round a site stands: the half-edge that it began with, the one that comes next, the one that it passed last.
#[derive(Clone, Copy)]
pub struct Cursor {
    pub start: u32,
    pub next: u32,
    pub last: u32,
}

// After half-edge e, the last of the walk that began at s: on the hull its end comes too.
fn last_step(triangles: &[u32], halfedges: &[u32], s: u32, e: usize) -> Option<(u32, Cursor)>
    requires { (length halfedges.now % 3 ≡ 0) × (length halfedges.now ≡ length triangles.now) × (e < length halfedges.now) }
    ensures { result ≡ last_step triangles.now halfedges.now s e }
{
    let o = mesh::next_halfedge(e);
    if halfedges[o] == EMPTY {
        return Some((
            mesh::end_site(triangles, o),
            Cursor {
                start: s,
                next: EMPTY,
                last: EMPTY,
            },
        ));
    }
    None
}

// The next neighbour, and the cursor past it.
pub fn step(triangles: &[u32], halfedges: &[u32], c: Cursor) -> Option<(u32, Cursor)>
    requires { (length halfedges.now % 3 ≡ 0) × (length halfedges.now ≡ length triangles.now) }
    ensures { result ≡ step_of triangles.now halfedges.now c }
{
    let next = base::numbers::wide(c.next);
    if next < halfedges.len() {
        return Some((
            triangles[next],
            Cursor {
                start: c.start,
                next: mesh::turn(halfedges, c.start, next),
                last: c.next,
            },
        ));
    }
    let last = base::numbers::wide(c.last);
    if last < halfedges.len() {
        return last_step(triangles, halfedges, c.start, last);
    }
    None
}

// Whether no neighbour is left.
fn over(triangles: &[u32], halfedges: &[u32], c: Cursor) -> bool
    requires { (length halfedges.now % 3 ≡ 0) × (length halfedges.now ≡ length triangles.now) }
    ensures { result ≡ is_end (step_of triangles.now halfedges.now c) }
{
    step(triangles, halfedges, c).is_none()
}

// The neighbours of the site whose leftmost half-edge is s, up to the slice's length.
pub fn neighbours(triangles: &[u32], halfedges: &[u32], s: u32, out: &mut [u32]) -> Walked
    requires { Paired triangles.now halfedges.now × (length halfedges.now ≡ length triangles.now) }
    ensures { Fills (starts_of triangles.now halfedges.now (whole_of halfedges.now s)) out.old out.new result.count result.ended }
{
    let mut c = Cursor {
        start: s,
        next: s,
        last: EMPTY,
    };
    for n in 0..out.len() {
        match step(triangles, halfedges, c) {
            Some((x, d)) => {
                out[n] = x;
                c = d;
            }
            None => {
                return Walked {
                    count: n,
                    ended: true,
                };
            }
        }
    }
    Walked {
        count: out.len(),
        ended: over(triangles, halfedges, c),
    }
}
