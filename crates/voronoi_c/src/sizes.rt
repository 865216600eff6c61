// The exports of module sizes of crate voronoi, which says what each does.
ghost use Rattle.voronoi.specs.Sizes.{Areas};

#[unsafe(no_mangle)]
pub extern "C" fn voronoi_areas(
    vertices: &[f64],
    offsets: &[u32],
    indexes: &[u32],
    areas: &mut [f64],
) -> u32
    ensures { Areas vertices.now offsets.now indexes.now areas.old areas.new result }
{
    voronoi::sizes::voronoi_areas(vertices, offsets, indexes, areas)
}
