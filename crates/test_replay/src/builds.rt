// One stored build, made again.
ghost use Rattle.mesh.specs.Accepted.{mesh};
ghost use Rattle.admission.specs.Slices.{slices};
ghost use Rattle.voronoi.specs.Builds.{Build};
ghost use Rattle.test_replay.specs.Replayed.{box_of};

use crate::words::float;
use voronoi::builds::voronoi_build;

pub fn build(
    b: &[u8],
    sites: &[f64],
    triangles: &[u32],
    halfedges: &[u32],
    hull: &[u32],
    work: &mut [u32],
    vertices: &mut [f64],
    indexes: &mut [u32],
    offsets: &mut [u32],
    counts: &mut [u32],
) -> u32
    ensures { Build (mesh sites.now triangles.now halfedges.now hull.now) (box_of b.now)
        (slices work.old vertices.old indexes.old offsets.old counts.old)
        (slices work.new vertices.new indexes.new offsets.new counts.new) result }
{
    voronoi_build(
        float(b, 5),
        float(b, 7),
        float(b, 9),
        float(b, 11),
        sites,
        triangles,
        halfedges,
        hull,
        work,
        vertices,
        indexes,
        offsets,
        counts,
    )
}
