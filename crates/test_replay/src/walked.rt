// The stored walk, neighbours, clipped neighbours and path of one site, asked again of the public calls.
ghost use Rattle.plane.specs.points.Plane.{at};
ghost use Rattle.mesh.specs.Accepted.{mesh};
ghost use Rattle.test_replay.specs.Replayed.{WalkHeld, NeighboursHeld, ClippedHeld, PathHeld, ListsHeld};

use crate::words::held::{BEFORE, after_list, list};
use crate::words::{after, float, word};
use voronoi::walking::{
    voronoi_clipped_neighbours, voronoi_neighbours, voronoi_path, voronoi_walk,
};

fn walk(
    b: &[u8],
    q: usize,
    site: u32,
    sites: &[f64],
    triangles: &[u32],
    halfedges: &[u32],
    hull: &[u32],
    work: &mut [u32],
) -> bool
    ensures { WalkHeld (mesh sites.now triangles.now halfedges.now hull.now) b.now q site
        work.old work.new result }
{
    let mut out = [BEFORE; 128];
    let mut count = 0;
    let mut ended = 0;
    let number = voronoi_walk(
        sites, triangles, halfedges, hull, site, work, &mut out, &mut count, &mut ended,
    );
    list(&out, b, q, number, count, ended)
}

fn neighbours(
    b: &[u8],
    q: usize,
    site: u32,
    sites: &[f64],
    triangles: &[u32],
    halfedges: &[u32],
    hull: &[u32],
    work: &mut [u32],
) -> bool
    ensures { NeighboursHeld (mesh sites.now triangles.now halfedges.now hull.now) b.now q site
        work.old work.new result }
{
    let mut out = [BEFORE; 128];
    let mut count = 0;
    let mut ended = 0;
    let number = voronoi_neighbours(
        sites, triangles, halfedges, hull, site, work, &mut out, &mut count, &mut ended,
    );
    list(&out, b, q, number, count, ended)
}

// Asked only where the build was accepted.
fn clipped_neighbours(
    b: &[u8],
    q: usize,
    built: bool,
    site: u32,
    sites: &[f64],
    triangles: &[u32],
    halfedges: &[u32],
    hull: &[u32],
    offsets: &[u32],
    indexes: &[u32],
    work: &mut [u32],
) -> bool
    ensures { ClippedHeld (mesh sites.now triangles.now halfedges.now hull.now) b.now q site
        built offsets.now indexes.now
        work.old work.new result }
{
    if !built {
        return true;
    }
    let mut out = [BEFORE; 128];
    let mut count = 0;
    let mut ended = 0;
    let number = voronoi_clipped_neighbours(
        sites, triangles, halfedges, hull, offsets, indexes, site, work, &mut out, &mut count,
        &mut ended,
    );
    list(&out, b, q, number, count, ended)
}

fn path(
    b: &[u8],
    q: usize,
    site: u32,
    x: f64,
    y: f64,
    sites: &[f64],
    triangles: &[u32],
    halfedges: &[u32],
    hull: &[u32],
    work: &mut [u32],
) -> bool
    ensures { PathHeld (mesh sites.now triangles.now halfedges.now hull.now) b.now q site (at x y)
        work.old work.new result }
{
    let mut out = [BEFORE; 128];
    let mut count = 0;
    let mut ended = 0;
    let number = voronoi_path(
        sites, triangles, halfedges, hull, site, x, y, work, &mut out, &mut count, &mut ended,
    );
    list(&out, b, q, number, count, ended)
}

// The four lists of the site at word q.
pub fn lists(
    b: &[u8],
    q: usize,
    built: bool,
    sites: &[f64],
    triangles: &[u32],
    halfedges: &[u32],
    hull: &[u32],
    offsets: &[u32],
    indexes: &[u32],
    work: &mut [u32],
) -> bool
    ensures { ListsHeld (mesh sites.now triangles.now halfedges.now hull.now) b.now built
        offsets.now indexes.now q
        work.old work.new result }
{
    let site = word(b, q);
    let first = after(q, 5);
    let second = after_list(b, first);
    let third = after_list(b, second);
    let fourth = after_list(b, third);
    if !walk(b, first, site, sites, triangles, halfedges, hull, work) {
        return false;
    }
    if !neighbours(b, second, site, sites, triangles, halfedges, hull, work) {
        return false;
    }
    if !clipped_neighbours(
        b, third, built, site, sites, triangles, halfedges, hull, offsets, indexes, work,
    ) {
        return false;
    }
    let x = float(b, after(q, 1));
    let y = float(b, after(q, 3));
    path(
        b, fourth, site, x, y, sites, triangles, halfedges, hull, work,
    )
}
