// Pairs worked out afresh from the triangles, in time that grows with their number. The half-edges are chained by the site where they start. For
// each site those that start there are marked at their ends; one that ends there then finds its pair by the mark at its start.
ghost use Rattle.std.specs.Prelude.{◌≡◌, ◌≤◌, ◌<◌, length};
ghost use Rattle.base.specs.common.Decide.{Says};
ghost use Rattle.mesh.specs.Mesh.{end_of};
ghost use Rattle.mending.specs.pairs.Pairs.{mate_of};
ghost use Rattle.mending.specs.pairs.Chains.{NamesSites, Chained, FromSite, Stale, Marked, MarkAnswer, SitePaired, PairAnswer};

use base::numbers::{EMPTY, wide};
use mesh::{end_site, next_halfedge};

// Chains the half-edges: `heads` gets the last half-edge that starts at each site, `links` for each half-edge the one before it that starts there too.
fn chain(triangles: &[u32], heads: &mut [u32], links: &mut [u32])
    requires { NamesSites triangles.now (length heads.old) × (length triangles.now ≤ length links.old) }
    ensures { Chained triangles.now heads.new links.new }
{
    mesh::clear(heads);
    for (e, site) in triangles.iter().enumerate() {
        let s = wide(*site);
        links[e] = heads[s];
        heads[s] = e as u32;
    }
}

// Whether the mark m names a half-edge that starts at site a; a mark left over from an earlier site does not.
fn from_site(triangles: &[u32], m: u32, a: usize) -> bool
    ensures { Says result (FromSite triangles.now a m) }
{
    let e = wide(m);
    if triangles.len() <= e {
        return false;
    }
    let s = wide(triangles[e]);
    s == a
}

// Marks, at their ends, the half-edges that start at site a. Answers no where two of them end at one site.
fn mark_site(triangles: &[u32], heads: &[u32], links: &[u32], marks: &mut [u32], a: usize) -> bool
    requires { NamesSites triangles.now (length marks.old) × Chained triangles.now heads.now links.now × (length triangles.now ≤ length links.now)
        × (a < length heads.now) × Stale triangles.now a marks.old }
    ensures { MarkAnswer triangles.now a marks.new result }
{
    let mut x = heads[a];
    while x != EMPTY {
        let e = wide(x);
        let b = wide(end_site(triangles, e));
        if from_site(triangles, marks[b], a) {
            return false;
        }
        marks[b] = x;
        x = links[e];
    }
    true
}

// The pair of half-edge d, which ends at site a: what is marked where d starts, if that starts at a.
fn mate(triangles: &[u32], marks: &[u32], a: usize, d: usize) -> u32
    requires { NamesSites triangles.now (length marks.now) × Marked triangles.now a marks.now × (d < length triangles.now) × (end_of triangles.now d ≡ a) }
    ensures { result ≡ mate_of triangles.now d }
{
    let m = marks[wide(triangles[d])];
    if from_site(triangles, m, a) {
        return m;
    }
    EMPTY
}

// Pairs the half-edges that end at site a: each comes before one that starts there.
fn pair_site(
    triangles: &[u32],
    heads: &[u32],
    links: &[u32],
    marks: &[u32],
    pairs: &mut [u32],
    a: usize,
)
    requires { NamesSites triangles.now (length marks.now) × Chained triangles.now heads.now links.now × (length triangles.now ≤ length links.now)
        × (a < length heads.now) × Marked triangles.now a marks.now × (length triangles.now ≤ length pairs.old) }
    ensures { SitePaired triangles.now a pairs.old pairs.new }
{
    let mut x = heads[a];
    while x != EMPTY {
        let e = wide(x);
        let d = next_halfedge(next_halfedge(e));
        pairs[d] = mate(triangles, marks, a, d);
        x = links[e];
    }
}

// The same for all sites, with the half-edges chained.
fn pair_sites(
    triangles: &[u32],
    heads: &[u32],
    links: &[u32],
    marks: &mut [u32],
    pairs: &mut [u32],
    sites: usize,
) -> bool
    requires { NamesSites triangles.now sites × (sites ≤ length heads.now) × Chained triangles.now heads.now links.now
        × (length triangles.now ≤ length links.now) × (sites ≤ length marks.old) × (length triangles.now ≤ length pairs.old) }
    ensures { PairAnswer triangles.now pairs.old pairs.new result }
{
    mesh::clear(marks);
    for a in 0..sites {
        if !mark_site(triangles, heads, links, marks, a) {
            return false;
        }
        pair_site(triangles, heads, links, marks, pairs, a);
    }
    true
}

// Rule 19 and the pairs. Heads, links and marks are slices to work in.
pub fn pair_up(
    triangles: &[u32],
    heads: &mut [u32],
    links: &mut [u32],
    marks: &mut [u32],
    pairs: &mut [u32],
    sites: usize,
) -> bool
    requires { NamesSites triangles.now sites × (sites ≤ length heads.old) × (length triangles.now ≤ length links.old)
        × (sites ≤ length marks.old) × (length triangles.now ≤ length pairs.old) }
    ensures { PairAnswer triangles.now pairs.old pairs.new result }
{
    chain(triangles, heads, links);
    pair_sites(triangles, heads, links, marks, pairs, sites)
}
