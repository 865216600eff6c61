// One try to clip the cell of a site: its ring is staged in the index list and clipped into the site's region.
ghost use Rattle.std.specs.Prelude.{◌≡◌, List, ℕ, ◌<◌, length};
ghost use Rattle.definition.specs.Reused.{Addable};
ghost use Rattle.cell_builder.specs.tried.SlicesInvariant.{plan, HullAmid, EdgesAmid, HullTried, EdgeTried};
ghost use Rattle.cell_builder.specs.tried.Tries.{progress_of, Ringed, Tried};

use crate::finish::Progress;
use crate::tried::Frame;
use base::numbers::{EMPTY, wide};
use cell_memory::staging::{stage_hull_ring, stage_ring};
use clipping::RingStepped;
use clipping::edges::{Env, together};
use clipping::interior::{all_inside, copy_ring};
use clipping::ring::clip_cell;
use definition::{Fault, Reused};
use mesh::end_site;

// How far the build is after a ring, where `reused` points had been taken again before it.
fn after_ring(reused: Reused, s: RingStepped) -> Progress
    requires { s.fault.number ≡ 0 → Addable reused × Addable s.reused }
    ensures { (result.fault ≡ s.fault) × (s.fault.number ≡ 0 → result ≡ progress_of reused s) }
{
    let fault = s.fault;
    let tip = s.tip;
    let cell = tip.cell;
    let left = cell.owners;
    if fault.number != 0 {
        return Progress {
            fault: fault,
            count: tip.count,
            owners: left,
            reused: reused,
        };
    }
    let more = s.reused;
    let all = together(reused, more);
    Progress {
        fault: fault,
        count: tip.count,
        owners: left,
        reused: all,
    }
}

// Clips the ring that is staged up to `end`; one that lies inside whole is its own cell.
fn clip_staged(
    vertices: &mut [f64],
    indexes: &mut [u32],
    offsets: &[u32],
    f: Frame,
    site: u32,
    p: Progress,
    end: usize,
) -> Progress
    requires { Ringed f site p end vertices.old indexes.old offsets.now }
    ensures { Tried f site p end vertices.old indexes.old offsets.now result vertices.new indexes.new }
{
    let bounds = f.bounds;
    let owners = p.owners;
    let reused = p.reused;
    let base = wide(offsets[wide(site)]);
    let len = end - f.stage;
    if all_inside(vertices, indexes, bounds, f.centers, p.count, f.stage, len) {
        copy_ring(indexes, base, f.stage, len);
        return Progress {
            fault: Fault {
                number: 0,
                place: 0,
                from: 0,
                to: 0,
            },
            count: p.count,
            owners: owners,
            reused: reused,
        };
    }
    let env = Env {
        site: site,
        bounds: bounds,
        centers: f.centers,
        limit: f.limit,
    };
    let s = clip_cell(vertices, indexes, env, p.count, owners, base, f.stage, len);
    after_ring(reused, s)
}

// The cell of the site at hull place i, from its ring with extensions.
pub fn clip_at_hull(
    triangles: &[u32],
    halfedges: &[u32],
    hull: &[u32],
    table: &[u32],
    vertices: &mut [f64],
    indexes: &mut [u32],
    offsets: &[u32],
    f: Frame,
    p: Progress,
    i: usize,
) -> Progress
    requires { HullAmid (plan triangles.now halfedges.now hull.now table.now f offsets.now) p vertices.old indexes.old i }
    ensures { HullTried (plan triangles.now halfedges.now hull.now table.now f offsets.now) p
        vertices.old indexes.old i result vertices.new indexes.new }
{
    let site = hull[i];
    let numbers = f.limit - hull.len();
    let end = stage_hull_ring(
        triangles, halfedges, hull, table, indexes, f.stage, numbers, i,
    );
    clip_staged(vertices, indexes, offsets, f, site, p, end)
}

// The cell of the site where half-edge e ends, if it is still empty, from the walk that starts there.
pub fn clip_at_edge(
    triangles: &[u32],
    halfedges: &[u32],
    vertices: &mut [f64],
    indexes: &mut [u32],
    offsets: &[u32],
    f: Frame,
    p: Progress,
    e: usize,
) -> Progress
    requires { (e < length triangles.now) × (hull : List ℕ) × (table : List ℕ)
        × EdgesAmid (plan triangles.now halfedges.now hull table f offsets.now) p vertices.old indexes.old }
    ensures { (hull table : List ℕ) → EdgeTried (plan triangles.now halfedges.now hull table f offsets.now) p
        vertices.old indexes.old e result vertices.new indexes.new }
{
    let site = end_site(triangles, e);
    let base = wide(offsets[wide(site)]);
    if indexes[base] != EMPTY {
        return p;
    }
    let end = stage_ring(triangles, halfedges, e as u32, indexes, f.stage);
    clip_staged(vertices, indexes, offsets, f, site, p, end)
}
