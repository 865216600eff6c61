// The area of each piece, or of any other rings over lent vertices: exact, rounded once.
ghost use Rattle.voronoi.specs.Sizes.{Areas};

// Where it is refused `areas` stays as it was; after 0 what is past the areas is 0.
pub fn voronoi_areas(vertices: &[f64], offsets: &[u32], indexes: &[u32], areas: &mut [f64]) -> u32
    ensures { Areas vertices.now offsets.now indexes.now areas.old areas.new result }
{
    base::refusal::number(areas::cell_areas(vertices, offsets, indexes, areas))
}
