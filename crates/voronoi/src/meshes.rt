// The check of a lent mesh.
ghost use Rattle.mesh.specs.Accepted.{mesh};
ghost use Rattle.voronoi.specs.Meshes.{Check};

// 0 for a mesh that is accepted; else the first of 1, 2, 6, 7, 8, 9, 10 whose rule is broken.
pub fn voronoi_check(
    sites: &[f64],
    triangles: &[u32],
    halfedges: &[u32],
    hull: &[u32],
    work: &mut [u32],
) -> u32
    ensures { Check (mesh sites.now triangles.now halfedges.now hull.now) work.old work.new result }
{
    let f = mesh_check::whole::check_mesh(sites, triangles, halfedges, hull, work);
    mesh_check::counts::number(f)
}
