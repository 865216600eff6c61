// Forms that arrive in parts: a reader is begun, fed blocks cut anywhere, and ended; its state is kept by the caller. And the whole form at once.
// 2 is tried before all else and changes nothing. A refusal stays until the reader is begun anew; a state that no reading leaves is refused by 17 at byte 0.
ghost use Rattle.reader.specs.Calls.{form_lists};
ghost use Rattle.reader.specs.Promise.{answer, report};
ghost use Rattle.voronoi.specs.Forms.{ReaderBegin, ReaderFeed, ReaderEnd, ReadForm};

// The state in sixteen words, then 0.
pub fn voronoi_reader_begin(state: &mut [u64]) -> u32
    ensures { ReaderBegin state.old state.new result }
{
    reader::begin(state)
}

// A block of any length. The lists hold the numbers whose last byte has come.
pub fn voronoi_reader_feed(
    state: &mut [u64],
    block: &[u8],
    bounds: &mut [f64],
    sites: &mut [f64],
    triangles: &mut [u32],
    halfedges: &mut [u32],
    hull: &mut [u32],
    at: &mut u64,
) -> u32
    ensures { ReaderFeed state.old (form_lists bounds.old sites.old triangles.old halfedges.old hull.old)
        block.now state.new (form_lists bounds.new sites.new triangles.new halfedges.new hull.new) (answer result at.new) }
{
    reader::feed(state, block, bounds, sites, triangles, halfedges, hull, at)
}

// No more will come: the counts and the kind that opened the form, or 17 or 20.
pub fn voronoi_reader_end(
    state: &mut [u64],
    clip: &mut u32,
    site_count: &mut u32,
    triangle_count: &mut u32,
    hull_count: &mut u32,
    at: &mut u64,
) -> u32
    ensures { ReaderEnd state.old state.new
        (report result clip.new site_count.new triangle_count.new hull_count.new at.new) }
{
    reader::end(state, clip, site_count, triangle_count, hull_count, at)
}

// As begin, one block and end.
pub fn voronoi_read_form(
    form: &[u8],
    bounds: &mut [f64],
    sites: &mut [f64],
    triangles: &mut [u32],
    halfedges: &mut [u32],
    hull: &mut [u32],
    clip: &mut u32,
    site_count: &mut u32,
    triangle_count: &mut u32,
    hull_count: &mut u32,
    at: &mut u64,
) -> u32
    ensures { ReadForm (form_lists bounds.old sites.old triangles.old halfedges.old hull.old) form.now
        (form_lists bounds.new sites.new triangles.new halfedges.new hull.new)
        (report result clip.new site_count.new triangle_count.new hull_count.new at.new) }
{
    reader::read(
        form,
        bounds,
        sites,
        triangles,
        halfedges,
        hull,
        clip,
        site_count,
        triangle_count,
        hull_count,
        at,
    )
}
