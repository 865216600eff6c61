// The exports of module forms of crate voronoi, which says what each does.
ghost use Rattle.reader.specs.Calls.{form_lists};
ghost use Rattle.reader.specs.Promise.{answer, report};
ghost use Rattle.voronoi.specs.Forms.{ReaderBegin, ReaderFeed, ReaderEnd, ReadForm};

#[unsafe(no_mangle)]
pub extern "C" fn voronoi_reader_begin(state: &mut [u64]) -> u32
    ensures { ReaderBegin state.old state.new result }
{
    voronoi::forms::voronoi_reader_begin(state)
}

#[unsafe(no_mangle)]
pub extern "C" fn voronoi_reader_feed(
    state: &mut [u64],
    block: &[u8],
    bounds: &mut [f64],
    sites: &mut [f64],
    triangles: &mut [u32],
    halfedges: &mut [u32],
    hull: &mut [u32],
    at: &mut u64,
) -> u32
    ensures { ReaderFeed state.old (form_lists bounds.old sites.old triangles.old halfedges.old hull.old)
        block.now state.new (form_lists bounds.new sites.new triangles.new halfedges.new hull.new) (answer result at.new) }
{
    voronoi::forms::voronoi_reader_feed(state, block, bounds, sites, triangles, halfedges, hull, at)
}

#[unsafe(no_mangle)]
pub extern "C" fn voronoi_reader_end(
    state: &mut [u64],
    clip: &mut u32,
    site_count: &mut u32,
    triangle_count: &mut u32,
    hull_count: &mut u32,
    at: &mut u64,
) -> u32
    ensures { ReaderEnd state.old state.new
        (report result clip.new site_count.new triangle_count.new hull_count.new at.new) }
{
    voronoi::forms::voronoi_reader_end(state, clip, site_count, triangle_count, hull_count, at)
}

#[unsafe(no_mangle)]
pub extern "C" fn voronoi_read_form(
    form: &[u8],
    bounds: &mut [f64],
    sites: &mut [f64],
    triangles: &mut [u32],
    halfedges: &mut [u32],
    hull: &mut [u32],
    clip: &mut u32,
    site_count: &mut u32,
    triangle_count: &mut u32,
    hull_count: &mut u32,
    at: &mut u64,
) -> u32
    ensures { ReadForm (form_lists bounds.old sites.old triangles.old halfedges.old hull.old) form.now
        (form_lists bounds.new sites.new triangles.new halfedges.new hull.new)
        (report result clip.new site_count.new triangle_count.new hull_count.new at.new) }
{
    voronoi::forms::voronoi_read_form(
        form,
        bounds,
        sites,
        triangles,
        halfedges,
        hull,
        clip,
        site_count,
        triangle_count,
        hull_count,
        at,
    )
}
