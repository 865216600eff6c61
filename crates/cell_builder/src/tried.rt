// One cell of a build: the try's ring staged in the index list and clipped into its site's region.
use plane::boxes::BoundingBox;

pub mod tries; // tries.rt: one try

// What stays while the cells are clipped: the box, the number of circumcenters, and in the index list where a ring is staged and where the store's part begins.
// Just before that stand the numbers of the hull's extensions.
#[derive(Clone, Copy)]
pub struct Frame {
    pub bounds: BoundingBox,
    pub centers: usize,
    pub stage: usize,
    pub limit: usize,
}
