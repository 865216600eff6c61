// The triangles of a mesh that turn the wrong way, or are flat: how many there are, and the lowest.
ghost use Rattle.std.specs.Prelude.{◌≡◌, ◌/◌, ◌<◌, length};
ghost use Rattle.ring_area.specs.lowest.Lowest.{lowest};
ghost use Rattle.audit.specs.turns.Turned.{turned_at, one_if_turned, turned_count, TrianglesKept};

use ring_area::rounding::ring_area;

// Whether triangle t, as a ring of its sites, has an area that is not above 0.
fn is_turned(sites: &[f64], triangles: &[u32], t: usize) -> bool
    requires { TrianglesKept sites.now triangles.now × (t < length triangles.now / 3) }
    ensures { result ≡ turned_at sites.now triangles.now t }
{
    let from = 3 * t;
    !(0.0 < ring_area(sites, &triangles[from..from + 3]))
}

// The lowest that is, or their number.
pub fn first_turned(sites: &[f64], triangles: &[u32]) -> usize
    requires { TrianglesKept sites.now triangles.now }
    ensures { result ≡ lowest (turned_at sites.now triangles.now) (length triangles.now / 3) }
{
    let total = triangles.len() / 3;
    for t in 0..total {
        if is_turned(sites, triangles, t) {
            return t;
        }
    }
    total
}

// 1 where it is, else 0.
fn one_if_turned(sites: &[f64], triangles: &[u32], t: usize) -> usize
    requires { TrianglesKept sites.now triangles.now × (t < length triangles.now / 3) }
    ensures { result ≡ one_if_turned sites.now triangles.now t }
{
    if is_turned(sites, triangles, t) {
        return 1;
    }
    0
}

// How many are.
pub fn count_turned(sites: &[f64], triangles: &[u32]) -> usize
    requires { TrianglesKept sites.now triangles.now }
    ensures { result ≡ turned_count sites.now triangles.now (length triangles.now / 3) }
{
    let total = triangles.len() / 3;
    let mut count = 0;
    for t in 0..total {
        count += one_if_turned(sites, triangles, t);
    }
    count
}
