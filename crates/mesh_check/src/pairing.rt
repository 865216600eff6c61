// Rules 7 and 8: each triangle names three sites, and each half-edge is unpaired or has the one that runs the other way.
ghost use Rattle.std.specs.Prelude.{◌≡◌, true, ◌/◌, ◌%◌, ◌<◌, length};
ghost use Rattle.base.specs.common.Decide.{Says, First};
ghost use Rattle.mesh.specs.Mesh.{end_of, Sound, SoundAt, Mates, PairedAt, AllPaired};
ghost use Rattle.mesh_check.specs.pairing.Half.{HalfPairedAt, HalvesPairedAt};

use base::numbers::EMPTY;

// Three different sites below n.
fn sound(n: usize, a: u32, b: u32, c: u32) -> bool
    ensures { Says result (Sound n a b c) }
{
    if n <= a as usize {
        return false;
    }
    if n <= b as usize {
        return false;
    }
    if n <= c as usize {
        return false;
    }
    if a == b {
        return false;
    }
    if b == c {
        return false;
    }
    if c == a {
        return false;
    }
    true
}

// Check 7: the lowest triangle that names no site, or one twice; or the number of triangles.
pub fn check_triangles(triangles: &[u32], sites: usize) -> usize
    requires { length triangles.now % 3 ≡ 0 }
    ensures { First (SoundAt triangles.now sites) (length triangles.now / 3) result }
{
    let count = triangles.len() / 3;
    (0..count)
        .find(|&t| {
            !sound(
                sites,
                triangles[3 * t],
                triangles[3 * t + 1],
                triangles[3 * t + 2],
            )
        })
        .unwrap_or(count)
}

// Whether p names half-edge e back, and runs the other way.
fn mates(triangles: &[u32], halfedges: &[u32], e: usize, pair: u32) -> bool
    requires { (length triangles.now % 3 ≡ 0) × (length halfedges.now ≡ length triangles.now) × (e < length triangles.now) }
    ensures { Says result (Mates triangles.now halfedges.now e pair) }
{
    let p = pair as usize;
    if halfedges.len() <= p {
        return false;
    }
    let back = base::numbers::wide(halfedges[p]);
    if back != e {
        return false;
    }
    let from = triangles[p];
    let there = mesh::end_site(triangles, e);
    if from != there {
        return false;
    }
    let to = mesh::end_site(triangles, p);
    let here = triangles[e];
    if to != here {
        return false;
    }
    true
}

// Whether half-edge e is paired as it must be.
fn paired(triangles: &[u32], halfedges: &[u32], e: usize) -> bool
    requires { (length triangles.now % 3 ≡ 0) × (length halfedges.now ≡ length triangles.now) × (e < length triangles.now) }
    ensures { Says result (PairedAt triangles.now halfedges.now e) }
{
    let p = halfedges[e];
    if p == EMPTY {
        return true;
    }
    mates(triangles, halfedges, e, p)
}

// Whether half-edge e, which ends at site `there`, is unpaired, or its pair names it back and starts there.
fn half_paired(triangles: &[u32], halfedges: &[u32], e: usize, there: u32) -> bool
    requires { (length halfedges.now ≡ length triangles.now) × (e < length triangles.now) × (there ≡ end_of triangles.now e) }
    ensures { result ≡ true → HalfPairedAt triangles.now halfedges.now e }
{
    let p = halfedges[e];
    if p == EMPTY {
        return true;
    }
    let k = p as usize;
    if halfedges.len() <= k {
        return false;
    }
    if base::numbers::wide(halfedges[k]) != e {
        return false;
    }
    triangles[k] == there
}

// Whether the three half-edges of triangle t are, each of its sites read once.
fn three_half_paired(triangles: &[u32], halfedges: &[u32], t: usize) -> bool
    requires { (length halfedges.now ≡ length triangles.now) × (t < length triangles.now / 3) }
    ensures { result ≡ true → HalvesPairedAt triangles.now halfedges.now t }
{
    let a = triangles[3 * t];
    let b = triangles[3 * t + 1];
    let c = triangles[3 * t + 2];
    if !half_paired(triangles, halfedges, 3 * t, b) {
        return false;
    }
    if !half_paired(triangles, halfedges, 3 * t + 1, c) {
        return false;
    }
    half_paired(triangles, halfedges, 3 * t + 2, a)
}

// Whether all half-edges are paired as they must be, with one look at the pair of each; no says nothing.
fn all_half_paired(triangles: &[u32], halfedges: &[u32]) -> bool
    requires { (length triangles.now % 3 ≡ 0) × (length halfedges.now ≡ length triangles.now) }
    ensures { result ≡ true → AllPaired triangles.now halfedges.now }
{
    if EMPTY as usize <= triangles.len() {
        return false;
    }
    (0..triangles.len() / 3).all(|t| three_half_paired(triangles, halfedges, t))
}

// Check 8: the lowest half-edge whose pairing is broken; or the number of half-edges.
pub fn check_pairs(triangles: &[u32], halfedges: &[u32]) -> usize
    requires { (length triangles.now % 3 ≡ 0) × (length halfedges.now ≡ length triangles.now) }
    ensures { First (PairedAt triangles.now halfedges.now) (length triangles.now) result }
{
    if all_half_paired(triangles, halfedges) {
        return triangles.len();
    }
    (0..triangles.len())
        .find(|&e| !paired(triangles, halfedges, e))
        .unwrap_or(triangles.len())
}
