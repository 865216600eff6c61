// Where the paths to many points end: the mesh is checked once, and each path begins where the last one ended.
ghost use Rattle.std.specs.Prelude.{◌≡◌, ◌/◌, length};
ghost use Rattle.std.proofs.lemmas.List.Edits.{sets};
ghost use Rattle.mesh.specs.Accepted.{mesh};
ghost use Rattle.base.specs.refusal.Number.{answer_number};
ghost use Rattle.arguments.specs.asking.Asks.{Asked};
ghost use Rattle.queries.specs.bulk_ends.Ends.{end_from, ends_up_to};
ghost use Rattle.queries.specs.bulk_ends.Promise.{ends_room, end_rules, EndsAnswer};
ghost use Rattle.queries.specs.bulk_ends.Steps.{Reachable, EndsAdmission};

use admission::admit;
use arguments::asking::ask_site;
use base::refusal::Refusal;
use mesh::clear;
use plane::points::point_at;

// Rule 4, then 5 on every point.
fn ask_points(sites: usize, site: u32, points: &[f64]) -> Result<(), Refusal>
    ensures { Asked (end_rules sites site points.now) (answer_number result) }
{
    ask_site(sites, site)?;
    if plane::points::first_bad_site(points) < points.len() / 2 {
        return Err(Refusal::Destination);
    }
    Ok(())
}

// Rule 2, by the lengths of the lists.
fn room(sites: usize, points: usize, work: usize, out: usize) -> bool
    ensures { result ≡ ends_room sites points work out }
{
    if work < sites {
        return false;
    }
    points <= out
}

// The rules up to 10. After 7 to 10 every lent slice is cleared.
fn admit_ends(
    sites: &[f64],
    triangles: &[u32],
    halfedges: &[u32],
    hull: &[u32],
    site: u32,
    points: &[f64],
    work: &mut [u32],
    out: &mut [u32],
) -> Result<(), Refusal>
    ensures { EndsAdmission (mesh sites.now triangles.now halfedges.now hull.now) site points.now
        work.old work.new out.old out.new (answer_number result) }
{
    if points.len() % 2 != 0 {
        return Err(Refusal::Count);
    }
    let asked = ask_points(sites.len() / 2, site, points);
    let roomy = room(sites.len() / 2, points.len() / 2, work.len(), out.len());
    let answer = admit(sites, triangles, halfedges, hull, roomy, asked, work);
    if answer.is_err_and(Refusal::of_mesh) {
        clear(out);
    }
    answer
}

// Writes the end of the path to each point.
fn write_ends(
    sites: &[f64],
    triangles: &[u32],
    halfedges: &[u32],
    table: &[u32],
    site: u32,
    points: &[f64],
    out: &mut [u32],
)
    requires { Reachable sites.now triangles.now halfedges.now table.now site points.now (length out.old) }
    ensures { out.new ≡ sets out.old 0
        (ends_up_to (end_from sites.now triangles.now halfedges.now table.now) points.now site (length points.now / 2)) }
{
    let mut at = site;
    for i in 0..points.len() / 2 {
        let end = walks::paths::path_end(
            sites,
            triangles,
            halfedges,
            table,
            at,
            point_at(points, i),
        );
        out[i] = end;
        at = end;
    }
}

// The end of the path to each point, the first path from `site`, each next from the last end; what is behind the ends stays as it was.
pub fn ends(
    sites: &[f64],
    triangles: &[u32],
    halfedges: &[u32],
    hull: &[u32],
    site: u32,
    points: &[f64],
    work: &mut [u32],
    out: &mut [u32],
) -> Result<(), Refusal>
    ensures { EndsAnswer (mesh sites.now triangles.now halfedges.now hull.now) site points.now
        work.old work.new out.old out.new (answer_number result) }
{
    admit_ends(sites, triangles, halfedges, hull, site, points, work, out)?;
    let count = sites.len() / 2;
    write_ends(
        sites,
        triangles,
        halfedges,
        &work[..count],
        site,
        points,
        out,
    );
    Ok(())
}
