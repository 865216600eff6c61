// iterator.rs: paths over the lent slices, each hop to the nearest neighbour.
ghost use Rattle.std.specs.Prelude.{◌≡◌, ◌/◌, ◌<◌, length};
ghost use Rattle.walks.specs.paths.Path.{dist_of, hop_of, nearer_of, whole_path, EndsAt};
ghost use Rattle.walks.specs.neighbours.Fills.{Fills};
ghost use Rattle.walks.specs.paths.PathNeeds.{Walkable, Towards};

use crate::neighbours::{Cursor, step};
use base::numbers::EMPTY;
use mesh::Walked;
use plane::points::Point;

// The squared distance from site s to p.
fn distance(sites: &[f64], s: u32, p: Point) -> f64
    requires { s < length sites.now / 2 }
    ensures { result ≡ dist_of sites.now p s }
{
    plane::points::dist2(plane::points::point_at(sites, base::numbers::wide(s)), p)
}

// The nearest site so far, and its distance.
#[derive(Clone, Copy)]
struct Best {
    site: u32,
    dist: f64,
}

fn nearer(best: Best, n: u32, dist: f64) -> Best
    ensures { result ≡ nearer_of best n dist }
{
    if dist < best.dist {
        return Best { site: n, dist };
    }
    best
}

// Where the path towards p goes from site s: s itself where it ends there.
fn hop(sites: &[f64], triangles: &[u32], halfedges: &[u32], table: &[u32], s: u32, p: Point) -> u32
    requires { Walkable triangles.now halfedges.now table.now (length sites.now / 2) × (s < length sites.now / 2) }
    ensures { (result ≡ hop_of sites.now triangles.now halfedges.now table.now p s) × (result < length sites.now / 2) }
{
    let start = table[base::numbers::wide(s)];
    let mut c = Cursor {
        start,
        next: start,
        last: EMPTY,
    };
    let mut best = Best {
        site: s,
        dist: distance(sites, s, p),
    };
    while let Some((n, d)) = step(triangles, halfedges, c) {
        best = nearer(best, n, distance(sites, n, p));
        c = d;
    }
    best.site
}

// The path from site s towards p, up to the slice's length.
pub fn path(
    sites: &[f64],
    triangles: &[u32],
    halfedges: &[u32],
    table: &[u32],
    s: u32,
    p: Point,
    out: &mut [u32],
) -> Walked
    requires { Walkable triangles.now halfedges.now table.now (length sites.now / 2) × Towards sites.now p (length sites.now / 2) × (s < length sites.now / 2) }
    ensures { Fills (whole_path sites.now triangles.now halfedges.now table.now p s)
        out.old out.new result.count result.ended }
{
    let mut at = s;
    for n in 0..out.len() {
        out[n] = at;
        let next = hop(sites, triangles, halfedges, table, at, p);
        if next == at {
            return Walked {
                count: n + 1,
                ended: true,
            };
        }
        at = next;
    }
    Walked {
        count: out.len(),
        ended: false,
    }
}

// The site where the path from s towards p ends.
pub fn path_end(
    sites: &[f64],
    triangles: &[u32],
    halfedges: &[u32],
    table: &[u32],
    s: u32,
    p: Point,
) -> u32
    requires { Walkable triangles.now halfedges.now table.now (length sites.now / 2) × Towards sites.now p (length sites.now / 2) × (s < length sites.now / 2) }
    ensures { EndsAt sites.now triangles.now halfedges.now table.now p s result }
{
    let mut at = s;
    loop {
        let next = hop(sites, triangles, halfedges, table, at, p);
        if next == at {
            return at;
        }
        at = next;
    }
}
