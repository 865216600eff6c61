// Writes a form into a lent slice of bytes, record by record: each function writes its bytes from a place on and answers the place after them.
// The first record and the sites' are given as the bytes they have, so that no pattern is made anew; triangles, pairs and hull as numbers.
ghost use Rattle.std.specs.Prelude.{◌∷◌, ◌++◌, ◌≡◌, ◌/◌, length};
ghost use Rattle.octets.specs.Bytes.{each};
ghost use Rattle.octets.specs.Wrote.{Wrote, HasRoom};
ghost use Rattle.form.specs.Form.{hull_bytes};
ghost use Rattle.mend.specs.writer.Written.{links, triangle_records, lists, written_form};

use octets::{put, put_le};

// Four bytes for each number.
fn put_links(out: &mut [u8], at: usize, numbers: &[u32]) -> usize
    requires { HasRoom out.old at (links numbers.now) }
    ensures { Wrote out.old out.new at result (links numbers.now) }
{
    let mut end = at;
    for n in numbers {
        end = put_le(out, end, 4, u64::from(*n));
    }
    end
}

// A triangle: three sites, and the pairs of its three half-edges.
fn put_triangle(out: &mut [u8], at: usize, sites: &[u32], pairs: &[u32]) -> usize
    requires { HasRoom out.old at (3 ∷ links sites.now ++ links pairs.now) }
    ensures { Wrote out.old out.new at result (3 ∷ links sites.now ++ links pairs.now) }
{
    out[at] = 3;
    let end = put_links(out, at + 1, sites);
    put_links(out, end, pairs)
}

fn put_triangles(out: &mut [u8], at: usize, triangles: &[u32], halfedges: &[u32]) -> usize
    requires { (length halfedges.now ≡ length triangles.now) × HasRoom out.old at (triangle_records triangles.now halfedges.now 0 (length triangles.now / 3)) }
    ensures { Wrote out.old out.new at result (triangle_records triangles.now halfedges.now 0 (length triangles.now / 3)) }
{
    let count = triangles.len() / 3;
    let mut end = at;
    for i in 0..count {
        let from = 3 * i;
        let to = 3 * i + 3;
        end = put_triangle(out, end, &triangles[from..to], &halfedges[from..to]);
    }
    end
}

fn put_hull_site(out: &mut [u8], at: usize, site: u32) -> usize
    requires { HasRoom out.old at (hull_bytes site) }
    ensures { Wrote out.old out.new at result (hull_bytes site) }
{
    out[at] = 4;
    put_le(out, at + 1, 4, u64::from(site))
}

fn put_hull(out: &mut [u8], at: usize, hull: &[u32]) -> usize
    requires { HasRoom out.old at (each hull_bytes hull.now) }
    ensures { Wrote out.old out.new at result (each hull_bytes hull.now) }
{
    let mut end = at;
    for site in hull {
        end = put_hull_site(out, end, *site);
    }
    end
}

// The records of triangles and hull, and the end.
fn put_lists(out: &mut [u8], at: usize, triangles: &[u32], halfedges: &[u32], hull: &[u32]) -> usize
    requires { (length halfedges.now ≡ length triangles.now) × HasRoom out.old at (lists triangles.now halfedges.now hull.now) }
    ensures { Wrote out.old out.new at result (lists triangles.now halfedges.now hull.now) }
{
    let a = put_triangles(out, at, triangles, halfedges);
    let b = put_hull(out, a, hull);
    put(out, b, &[5])
}

// A form: its first record and its sites' records as the bytes they have, then its lists.
pub fn write(
    out: &mut [u8],
    first: &[u8],
    sites: &[u8],
    triangles: &[u32],
    halfedges: &[u32],
    hull: &[u32],
) -> usize
    requires { (length halfedges.now ≡ length triangles.now) × HasRoom out.old 0 (written_form first.now sites.now triangles.now halfedges.now hull.now) }
    ensures { Wrote out.old out.new 0 result
        (written_form first.now sites.now triangles.now halfedges.now hull.now) }
{
    let a = put(out, 0, first);
    let b = put(out, a, sites);
    put_lists(out, b, triangles, halfedges, hull)
}
