// Walks, neighbours and paths on a mesh, and what triangles and cells share. Every mesh query checks the mesh. A list is written up to the output's
// length; `count` is how many entries were written and `ended` 1 where the last one written ends the list. A lent number is always written.
ghost use Rattle.std.specs.Prelude.{◌≡◌};
ghost use Rattle.base.specs.refusal.Number.{answer_number};
ghost use Rattle.plane.specs.points.Plane.{at};
ghost use Rattle.plane_calls.specs.Plane.{bit};
ghost use Rattle.mesh.specs.Accepted.{mesh};
ghost use Rattle.queries.specs.Answers.{count_of, ended_of};
ghost use Rattle.voronoi.specs.Walks.{Walk, Neighbours, ClippedNeighbours, Path, SharedEdge, CellsShareEdge};

use base::numbers::EMPTY;
use base::refusal::Refusal;
use plane::points::Point;
use queries::Listed;

// The number; the count and the end of a list in the lent numbers, none and no where it is refused.
fn put_listed(answer: Result<Listed, Refusal>, count: &mut u32, ended: &mut u32) -> u32
    ensures { (result ≡ answer_number answer) × (count.new ≡ count_of answer) × (ended.new ≡ bit (ended_of answer)) }
{
    match answer {
        Ok(listed) => {
            *count = listed.count;
            *ended = plane_calls::yes(listed.ended);
            0
        }
        Err(refusal) => {
            *count = 0;
            *ended = 0;
            u32::from(refusal)
        }
    }
}

// The half-edges that end at a site, from its leftmost one on.
pub fn voronoi_walk(
    sites: &[f64],
    triangles: &[u32],
    halfedges: &[u32],
    hull: &[u32],
    site: u32,
    work: &mut [u32],
    out: &mut [u32],
    count: &mut u32,
    ended: &mut u32,
) -> u32
    ensures { Walk (mesh sites.now triangles.now halfedges.now hull.now) site work.old
        work.new out.old out.new count.new ended.new result }
{
    let answer = queries::walk(sites, triangles, halfedges, hull, site, work, out);
    put_listed(answer, count, ended)
}

// The start sites along the walk; a hull site adds the last end.
pub fn voronoi_neighbours(
    sites: &[f64],
    triangles: &[u32],
    halfedges: &[u32],
    hull: &[u32],
    site: u32,
    work: &mut [u32],
    out: &mut [u32],
    count: &mut u32,
    ended: &mut u32,
) -> u32
    ensures { Neighbours (mesh sites.now triangles.now halfedges.now hull.now) site work.old
        work.new out.old out.new count.new ended.new result }
{
    let answer = queries::neighbours(sites, triangles, halfedges, hull, site, work, out);
    put_listed(answer, count, ended)
}

// The neighbours whose cells still share an edge with the site's, on the hull; 16 is tried on the cells.
pub fn voronoi_clipped_neighbours(
    sites: &[f64],
    triangles: &[u32],
    halfedges: &[u32],
    hull: &[u32],
    offsets: &[u32],
    indexes: &[u32],
    site: u32,
    work: &mut [u32],
    out: &mut [u32],
    count: &mut u32,
    ended: &mut u32,
) -> u32
    ensures { ClippedNeighbours (mesh sites.now triangles.now halfedges.now hull.now)
        offsets.now indexes.now site
        work.old work.new out.old out.new count.new ended.new result }
{
    let answer = queries::clipped_neighbours(
        sites, triangles, halfedges, hull, offsets, indexes, site, work, out,
    );
    put_listed(answer, count, ended)
}

// From site to site, each time to the first of the nearest neighbours while that is strictly nearer to (x, y).
pub fn voronoi_path(
    sites: &[f64],
    triangles: &[u32],
    halfedges: &[u32],
    hull: &[u32],
    site: u32,
    x: f64,
    y: f64,
    work: &mut [u32],
    out: &mut [u32],
    count: &mut u32,
    ended: &mut u32,
) -> u32
    ensures { Path (mesh sites.now triangles.now halfedges.now hull.now) site (at x y)
        work.old work.new out.old out.new count.new ended.new result }
{
    let p = Point { x, y };
    let answer = queries::path(sites, triangles, halfedges, hull, site, p, work, out);
    put_listed(answer, count, ended)
}

// The half-edge of triangle a on the edge that it shares with triangle b, or EMPTY.
pub fn voronoi_shared_edge(
    sites: &[f64],
    triangles: &[u32],
    halfedges: &[u32],
    hull: &[u32],
    a: u32,
    b: u32,
    work: &mut [u32],
    edge: &mut u32,
) -> u32
    ensures { SharedEdge (mesh sites.now triangles.now halfedges.now hull.now) a b
        work.old work.new edge.new result }
{
    match queries::shared_edge(sites, triangles, halfedges, hull, a, b, work) {
        Ok(e) => {
            *edge = e;
            0
        }
        Err(refusal) => {
            *edge = EMPTY;
            u32::from(refusal)
        }
    }
}

// Whether the cells of sites a and b share an edge, that is two entries.
pub fn voronoi_cells_share_edge(
    offsets: &[u32],
    indexes: &[u32],
    a: u32,
    b: u32,
    yes: &mut u32,
) -> u32
    ensures { CellsShareEdge offsets.now indexes.now a b yes.new result }
{
    match cell_query::cells_share_edge(offsets, indexes, a, b) {
        Ok(share) => {
            *yes = plane_calls::yes(share);
            0
        }
        Err(refusal) => {
            *yes = 0;
            u32::from(refusal)
        }
    }
}
