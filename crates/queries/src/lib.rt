// The queries on a lent mesh, each with its refusals and every lent slice at exit.

#![tactic(auto)]

pub mod all_neighbours;
pub mod bulk_ends;
pub mod bulk_neighbours;
pub mod clipped;

ghost use Rattle.std.specs.Prelude.{◌≡◌, ◌<◌};
ghost use Rattle.mesh.specs.Accepted.{mesh};
ghost use Rattle.queries.specs.Answers.{listed, WalkAnswer, NeighboursAnswer, ClippedAnswer, PathAnswer, found, EdgeAnswer};

use admission::admit_list;
use arguments::asking::ask_site;
use base::refusal::Refusal;
use mesh::Walked;
use plane::points::Point;

// How many entries of a list were written; whether the last one written ends it.
#[derive(Clone, Copy)]
pub struct Listed {
    pub count: u32,
    pub ended: bool,
}

fn given(w: Walked) -> Listed
    requires { w.count < 4294967296 }
    ensures { (result.count ≡ w.count) × (result.ended ≡ w.ended) }
{
    Listed {
        count: w.count as u32,
        ended: w.ended,
    }
}

// The walk round a site from its leftmost half-edge, up to the slice's length.
pub fn walk(
    sites: &[f64],
    triangles: &[u32],
    halfedges: &[u32],
    hull: &[u32],
    site: u32,
    work: &mut [u32],
    out: &mut [u32],
) -> Result<Listed, Refusal>
    ensures { WalkAnswer (mesh sites.now triangles.now halfedges.now hull.now) site work.old
        work.new out.old out.new (listed result) }
{
    let asked = ask_site(sites.len() / 2, site);
    admit_list(sites, triangles, halfedges, hull, asked, work, out)?;
    let start = work[base::numbers::wide(site)];
    Ok(given(mesh::walk(halfedges, start, out)))
}

// The neighbours of a site, up to the slice's length.
pub fn neighbours(
    sites: &[f64],
    triangles: &[u32],
    halfedges: &[u32],
    hull: &[u32],
    site: u32,
    work: &mut [u32],
    out: &mut [u32],
) -> Result<Listed, Refusal>
    ensures { NeighboursAnswer (mesh sites.now triangles.now halfedges.now hull.now) site
        work.old work.new out.old out.new (listed result) }
{
    let asked = ask_site(sites.len() / 2, site);
    admit_list(sites, triangles, halfedges, hull, asked, work, out)?;
    let start = work[base::numbers::wide(site)];
    Ok(given(walks::neighbours::neighbours(triangles, halfedges, start, out)))
}

// The path from a site towards p, up to the slice's length.
pub fn path(
    sites: &[f64],
    triangles: &[u32],
    halfedges: &[u32],
    hull: &[u32],
    site: u32,
    p: Point,
    work: &mut [u32],
    out: &mut [u32],
) -> Result<Listed, Refusal>
    ensures { PathAnswer (mesh sites.now triangles.now halfedges.now hull.now) site p work.old
        work.new out.old out.new (listed result) }
{
    let count = sites.len() / 2;
    let asked = arguments::asking::ask_path(count, site, p);
    admit_list(sites, triangles, halfedges, hull, asked, work, out)?;
    Ok(given(walks::paths::path(sites, triangles, halfedges, &work[..count], site, p, out)))
}

// The neighbours of a site after clipping, up to the slice's length.
pub fn clipped_neighbours(
    sites: &[f64],
    triangles: &[u32],
    halfedges: &[u32],
    hull: &[u32],
    offsets: &[u32],
    indexes: &[u32],
    site: u32,
    work: &mut [u32],
    out: &mut [u32],
) -> Result<Listed, Refusal>
    ensures { ClippedAnswer (mesh sites.now triangles.now halfedges.now hull.now) offsets.now
        indexes.now site work.old work.new out.old out.new (listed result) }
{
    let count = sites.len() / 2;
    let asked = ask_site(count, site);
    admit_list(sites, triangles, halfedges, hull, asked, work, out)?;
    if !arguments::asking::cells_ok(offsets, indexes, count) {
        mesh::clear(work);
        return Err(Refusal::Offsets);
    }
    let start = work[base::numbers::wide(site)];
    Ok(given(crate::clipped::clipped_neighbours(
        triangles, halfedges, offsets, indexes, site, start, out,
    )))
}

// The half-edge of triangle a on the edge that it shares with triangle b, or `EMPTY`.
pub fn shared_edge(
    sites: &[f64],
    triangles: &[u32],
    halfedges: &[u32],
    hull: &[u32],
    a: u32,
    b: u32,
    work: &mut [u32],
) -> Result<u32, Refusal>
    ensures { EdgeAnswer (mesh sites.now triangles.now halfedges.now hull.now) a b
        work.old work.new (found result) }
{
    let roomy = sites.len() / 2 <= work.len();
    admission::admit(sites, triangles, halfedges, hull, roomy, Ok(()), work)?;
    Ok(walks::shared::shared_edge(halfedges, a, b))
}
