// The exports of module meshes of crate voronoi, which says what each does.
ghost use Rattle.mesh.specs.Accepted.{mesh};
ghost use Rattle.voronoi.specs.Meshes.{Check};

#[unsafe(no_mangle)]
pub extern "C" fn voronoi_check(
    sites: &[f64],
    triangles: &[u32],
    halfedges: &[u32],
    hull: &[u32],
    work: &mut [u32],
) -> u32
    ensures { Check (mesh sites.now triangles.now halfedges.now hull.now) work.old work.new result }
{
    voronoi::meshes::voronoi_check(sites, triangles, halfedges, hull, work)
}
