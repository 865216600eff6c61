// A build's slices and a call's list, held to the stored words to their last element.
ghost use Rattle.std.specs.Prelude.{◌≡◌};
ghost use Rattle.base.specs.common.Decide.{Says};
ghost use Rattle.test_replay.specs.words.Held.{BuildHeld, RefusedHeld, ListHeld, table_place, points_place, starts_place, end_place, refused_rest, refused_bits, after_list_of};

use crate::words::{after, holds, holds_floats, index, word};
use base::numbers::EMPTY;

// What the lent slices hold before the call.
pub const BEFORE: u32 = 7;

pub const BEFORE_FLOAT: f64 = 7.0;

const BEFORE_BITS: u64 = 0x401C_0000_0000_0000;

fn table(k: usize) -> usize
    ensures { result ≡ table_place k }
{
    after(k, 9)
}

fn points(k: usize, n: usize) -> usize
    ensures { result ≡ points_place k n }
{
    after(table(k), n)
}

fn starts(b: &[u8], k: usize, n: usize) -> usize
    ensures { result ≡ starts_place b.now k n }
{
    after(points(k, n), 4 * index(b, k))
}

// The word of the last offset of an accepted build of n sites, whose counts stand from word k on; its entries follow.
pub fn end(b: &[u8], k: usize, n: usize) -> usize
    ensures { result ≡ end_place b.now k n }
{
    after(starts(b, k, n), n)
}

// Whether the slices of an accepted build are as stored: its counts stand from word k on, then the table, the vertices, the offsets, the entries.
pub fn accepted(
    b: &[u8],
    k: usize,
    work: &[u32],
    vertices: &[f64],
    indexes: &[u32],
    offsets: &[u32],
    counts: &[u32],
) -> bool
    ensures { Says result (BuildHeld b.now k work.now vertices.now indexes.now offsets.now
        counts.now) }
{
    let n = work.len();
    let last = end(b, k, n);
    holds(counts, b, k, 9, EMPTY)
        & holds(work, b, table(k), n, EMPTY)
        & holds_floats(vertices, b, points(k, n), 2 * index(b, k), 0)
        & holds(offsets, b, starts(b, k, n), offsets.len(), EMPTY)
        & holds(indexes, b, after(last, 1), index(b, last), EMPTY)
}

fn rest(number: u32) -> u32
    ensures { result ≡ refused_rest number }
{
    if number < base::numbers::REFUSED_TRIANGLE {
        return BEFORE;
    }
    EMPTY
}

fn rest_bits(number: u32) -> u64
    ensures { result ≡ refused_bits number }
{
    if number < base::numbers::REFUSED_TRIANGLE {
        return BEFORE_BITS;
    }
    0
}

// Whether every slice is as it must be after this refusal: as before the call, or cleared.
pub fn refused(
    number: u32,
    b: &[u8],
    work: &[u32],
    vertices: &[f64],
    indexes: &[u32],
    offsets: &[u32],
    counts: &[u32],
) -> bool
    ensures { Says result (RefusedHeld number b.now work.now vertices.now indexes.now
        offsets.now counts.now) }
{
    let all = rest(number);
    holds(counts, b, 0, 0, all)
        & holds(work, b, 0, 0, all)
        & holds_floats(vertices, b, 0, 0, rest_bits(number))
        & holds(offsets, b, 0, 0, all)
        & holds(indexes, b, 0, 0, all)
}

// Whether a call was accepted and wrote the list stored from word q on, to its end.
pub fn list(out: &[u32], b: &[u8], q: usize, number: u32, count: u32, ended: u32) -> bool
    ensures { Says result (ListHeld out.now b.now q number count ended) }
{
    if number != 0 {
        return false;
    }
    if ended != 1 {
        return false;
    }
    if count != word(b, q) {
        return false;
    }
    holds(out, b, after(q, 1), index(b, q), BEFORE)
}

// The place after the list whose length stands at word q.
pub fn after_list(b: &[u8], q: usize) -> usize
    ensures { result ≡ after_list_of b.now q }
{
    after(after(q, 1), index(b, q))
}
