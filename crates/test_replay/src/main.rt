// Replays the Rust's stored answers: each mesh is built and walked again by the public calls, and every lent slice is held to the stored words to its last element.
// harness/src/stored.rs says how a mesh and its answers are stored, and made them with the source's own code.
#![tactic(auto)]

pub mod words;
mod builds; // builds.rt: the build
mod walked; // walked.rt: walks, neighbours, paths

ghost use Rattle.std.specs.Prelude.{◌≡◌, ◌+◌, ◌≤◌, ◌<◌, length, replicate};
ghost use Rattle.mesh.specs.Accepted.{mesh};
ghost use Rattle.admission.specs.Slices.{slices};
ghost use Rattle.test_replay.specs.Judged.{AnswersJudged, BuildReplayed};
ghost use Rattle.test_replay.specs.Tallied.{sevens_of, Replayed, RecordVerdict, NextRead, tally_with, RecordsTallied};

use crate::words::held::{BEFORE, BEFORE_FLOAT, accepted, after_list, end, refused};
use crate::words::{after, index, word};

// A mesh's answers: as stored, built or refused; or different.
const BUILT: u32 = 0;

const REFUSED: u32 = 1;

const DIFFERENT: u32 = 2;

#[derive(Clone, Copy)]
struct Tally {
    built: u32,
    refused: u32,
    different: u32,
}

// The record's answers from word k on, where its number stands.
fn judge(
    b: &[u8],
    k: usize,
    number: u32,
    sites: &[f64],
    triangles: &[u32],
    halfedges: &[u32],
    hull: &[u32],
    work: &mut [u32],
    vertices: &[f64],
    indexes: &[u32],
    offsets: &[u32],
    counts: &[u32],
) -> u32
    ensures { AnswersJudged (mesh sites.now triangles.now halfedges.now hull.now) b.now k number
        (slices work.old vertices.now indexes.now offsets.now counts.now) work.new result }
{
    if number != word(b, k) {
        return DIFFERENT;
    }
    if number == 0 {
        let from = after(k, 1);
        if !accepted(b, from, work, vertices, indexes, offsets, counts) {
            return DIFFERENT;
        }
        let q = after_list(b, end(b, from, work.len()));
        if walked::lists(
            b, q, true, sites, triangles, halfedges, hull, offsets, indexes, work,
        ) {
            return BUILT;
        }
        return DIFFERENT;
    }
    if !refused(number, b, work, vertices, indexes, offsets, counts) {
        return DIFFERENT;
    }
    if number <= base::numbers::REFUSED_FAN {
        return REFUSED;
    }
    if walked::lists(
        b,
        after(k, 1),
        false,
        sites,
        triangles,
        halfedges,
        hull,
        offsets,
        indexes,
        work,
    ) {
        return REFUSED;
    }
    DIFFERENT
}

fn answers(
    b: &[u8],
    k: usize,
    sites: &[f64],
    triangles: &[u32],
    halfedges: &[u32],
    hull: &[u32],
    work: &mut [u32],
    vertices: &mut [f64],
    indexes: &mut [u32],
    offsets: &mut [u32],
) -> u32
    ensures { BuildReplayed (mesh sites.now triangles.now halfedges.now hull.now) b.now k
        (slices work.old vertices.old indexes.old offsets.old (replicate 9 7)) result }
{
    let mut counts = [BEFORE; 9];
    let number = builds::build(
        b,
        sites,
        triangles,
        halfedges,
        hull,
        work,
        vertices,
        indexes,
        offsets,
        &mut counts,
    );
    judge(
        b, k, number, sites, triangles, halfedges, hull, work, vertices, indexes, offsets, &counts,
    )
}

// With every room exact.
fn replay(
    b: &[u8],
    k: usize,
    sites: &[f64],
    triangles: &[u32],
    halfedges: &[u32],
    hull: &[u32],
) -> u32
    requires { (length sites.now ≤ 128) × (length triangles.now ≤ 128) × (length hull.now ≤ 64) }
    ensures { BuildReplayed (mesh sites.now triangles.now halfedges.now hull.now) b.now k
        (sevens_of (mesh sites.now triangles.now halfedges.now hull.now)) result }
{
    let mut work = [BEFORE; 64];
    let mut vertices = [BEFORE_FLOAT; 1300];
    let mut indexes = [BEFORE; 1100];
    let mut offsets = [BEFORE; 65];
    let n = sites.len() / 2;
    let t = triangles.len() / 3;
    let h = hull.len();
    let numbers = 2 * (7 * t + 5 * h + 4);
    let entries = 12 * t + 8 * h + 4;
    let more = n + 1;
    answers(
        b,
        k,
        sites,
        triangles,
        halfedges,
        hull,
        &mut work[..n],
        &mut vertices[..numbers],
        &mut indexes[..entries],
        &mut offsets[..more],
    )
}

// The mesh stored from word 13 on, read into slices as long as its lists, then its answers.
fn mesh(
    b: &[u8],
    sites: &mut [f64],
    triangles: &mut [u32],
    halfedges: &mut [u32],
    hull: &mut [u32],
) -> u32
    requires { (length sites.old ≤ 128) × (length triangles.old ≤ 128) × (length hull.old ≤ 64) }
    ensures { Replayed b.now (length sites.old) (length triangles.old) (length halfedges.old)
        (length hull.old) result }
{
    let from = after(13, 2 * sites.len());
    let pairs = after(from, triangles.len());
    let border = after(pairs, halfedges.len());
    crate::words::load_floats(b, 13, sites);
    crate::words::load(b, from, triangles);
    crate::words::load(b, pairs, halfedges);
    crate::words::load(b, border, hull);
    replay(
        b,
        after(border, hull.len()),
        sites,
        triangles,
        halfedges,
        hull,
    )
}

// With lists of these lengths.
fn sized(b: &[u8], s: usize, t: usize, e: usize, h: usize) -> u32
    requires { (s ≤ 128) × (t ≤ 128) × (e ≤ 128) × (h ≤ 64) }
    ensures { Replayed b.now s t e h result }
{
    let mut sites = [0.0f64; 128];
    let mut triangles = [0u32; 128];
    let mut halfedges = [0u32; 128];
    let mut hull = [0u32; 64];
    mesh(
        b,
        &mut sites[..s],
        &mut triangles[..t],
        &mut halfedges[..e],
        &mut hull[..h],
    )
}

fn record(b: &[u8]) -> u32
    ensures { RecordVerdict b.now result }
{
    let s = index(b, 1);
    let t = index(b, 2);
    let e = index(b, 3);
    let h = index(b, 4);
    if 128 < s {
        return DIFFERENT;
    }
    if 128 < t {
        return DIFFERENT;
    }
    if 128 < e {
        return DIFFERENT;
    }
    if 64 < h {
        return DIFFERENT;
    }
    sized(b, s, t, e, h)
}

fn tallied(all: Tally, verdict: u32) -> Tally
    requires { all.built + all.refused + all.different < 4294967295 }
    ensures { result ≡ tally_with all verdict }
{
    let mut n = all;
    if verdict == BUILT {
        n.built += 1;
        return n;
    }
    if verdict == REFUSED {
        n.refused += 1;
        return n;
    }
    n.different += 1;
    n
}

fn say(rt: &HostRuntime, n: u32, what: &[u8]) {
    let _ = rt.print(n);
    let _ = rt.write_all(what);
}

// A record's bytes, as many as the slice has.
fn body(rt: &HostRuntime, b: &mut [u8]) -> u32
    ensures { NextRead result }
{
    let got = host::read_full(&mut rt.stdin(), b);
    if got < b.len() {
        return DIFFERENT;
    }
    record(b)
}

// The next record: its length in words, and its words.
fn next(rt: &HostRuntime) -> u32
    ensures { NextRead result }
{
    let mut head = [0u8; 4];
    if host::read_full(&mut rt.stdin(), &mut head) < 4 {
        return DIFFERENT;
    }
    let n = index(&head, 0);
    if 1024 < n {
        return DIFFERENT;
    }
    let end = 4 * n;
    let mut b = [0u8; 4096];
    body(rt, &mut b[..end])
}

// The next record, which is number i.
fn one(rt: &HostRuntime, i: u32) -> u32
    ensures { NextRead result }
{
    let verdict = next(rt);
    if verdict == DIFFERENT {
        say(rt, i, b" differs\n");
    }
    verdict
}

fn each(rt: &HostRuntime, count: u32) -> Tally
    ensures { RecordsTallied count result }
{
    let mut all = Tally {
        built: 0,
        refused: 0,
        different: 0,
    };
    for i in 0..count {
        all = tallied(all, one(rt, i));
    }
    all
}

fn main(rt: HostRuntime) {
    let mut head = [0u8; 8];
    host::read_full(&mut rt.stdin(), &mut head);
    let count = word(&head, 1);
    let all = each(&rt, count);
    say(&rt, count, b" meshes: ");
    say(&rt, all.built, b" built, ");
    say(&rt, all.refused, b" refused, ");
    say(&rt, all.different, b" different\n");
}
