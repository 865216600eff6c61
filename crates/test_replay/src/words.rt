// A record's words, little-endian, and lent slices held to them. A word past the record's end is 0.
// harness/src/stored.rs says how a mesh and its answers are stored.
pub mod held; // held.rt: a build's slices and a call's list

ghost use Rattle.std.specs.Prelude.{◌≡◌, ◌<◌, get_or};
ghost use Rattle.std.specs.Float.{nan};
ghost use Rattle.base.specs.common.Decide.{Says};
ghost use Rattle.test_replay.specs.words.Words.{word_of, after_of, expected_of, pattern_of, float_of, bits_of, place_of, expected_bits_of, Loaded};
ghost use Rattle.test_replay.specs.words.Held.{HasWords, HasFloats};

use root::{INFINITY, SIGN};

const NAN: u64 = 0x7FF8_0000_0000_0000;

fn byte(b: &[u8], at: usize) -> u32
    ensures { (result ≡ get_or b.now at 0) × (result < 256) }
{
    if at < b.len() {
        return b[at] as u32;
    }
    0
}

fn wide(x: u32) -> u64
    ensures { result ≡ x }
{
    x as u64
}

// A record has at most so many words.
pub const WORDS: usize = 1024;

// Word k.
pub fn word(b: &[u8], k: usize) -> u32
    ensures { result ≡ word_of b.now k }
{
    if WORDS <= k {
        return 0;
    }
    let at = 4 * k;
    byte(b, at) + byte(b, at + 1) * 256 + byte(b, at + 2) * 65536 + byte(b, at + 3) * 16777216
}

pub fn index(b: &[u8], k: usize) -> usize
    ensures { (result ≡ word_of b.now k) × (result < 4294967296) }
{
    word(b, k) as usize
}

// The place n words after k, or the end.
pub fn after(k: usize, n: usize) -> usize
    ensures { result ≡ after_of k n }
{
    if WORDS <= k {
        return WORDS;
    }
    if WORDS <= n {
        return WORDS;
    }
    k + n
}

// The pattern of words k and the next.
fn pattern(b: &[u8], k: usize) -> u64
    ensures { result ≡ pattern_of b.now k }
{
    wide(word(b, k)) + wide(word(b, after(k, 1))) * 4294967296
}

fn float_of(bits: u64) -> f64
    ensures { result ≡ float_of bits }
{
    if INFINITY < bits % SIGN {
        return 0.0 / 0.0;
    }
    f64::from_bits(bits)
}

pub fn float(b: &[u8], k: usize) -> f64
    ensures { result ≡ float_of (pattern_of b.now k) }
{
    float_of(pattern(b, k))
}

fn bits_of(x: f64) -> u64
    ensures { result ≡ bits_of x }
{
    if x != x {
        return NAN;
    }
    f64::to_bits(x)
}

// Fills l with the words from k on.
pub fn load(b: &[u8], k: usize, l: &mut [u32])
    ensures { Loaded 0 (λ i. word_of b.now (after_of k i)) l.old l.new }
{
    for i in 0..l.len() {
        l[i] = word(b, after(k, i));
    }
}

pub fn load_floats(b: &[u8], k: usize, l: &mut [f64])
    ensures { Loaded nan (λ i. float_of (pattern_of b.now (place_of k i))) l.old l.new }
{
    for i in 0..l.len() {
        l[i] = float(b, after(after(k, i), i));
    }
}

// What stands at place i of a slice that has the n words from k on, then `rest`.
fn expected(b: &[u8], k: usize, n: usize, i: usize, rest: u32) -> u32
    ensures { result ≡ expected_of b.now k n i rest }
{
    if i < n {
        return word(b, after(k, i));
    }
    rest
}

fn expected_bits(b: &[u8], k: usize, n: usize, i: usize, rest: u64) -> u64
    ensures { result ≡ expected_bits_of b.now k n i rest }
{
    if i < n {
        return pattern(b, after(after(k, i), i));
    }
    rest
}

// Whether l has the n words from k on, then `rest` to its end.
pub fn holds(l: &[u32], b: &[u8], k: usize, n: usize, rest: u32) -> bool
    ensures { Says result (HasWords l.now b.now k n rest) }
{
    if l.len() < n {
        return false;
    }
    for i in 0..l.len() {
        if l[i] != expected(b, k, n, i, rest) {
            return false;
        }
    }
    true
}

// The same of floats, pattern by pattern.
pub fn holds_floats(l: &[f64], b: &[u8], k: usize, n: usize, rest: u64) -> bool
    ensures { Says result (HasFloats l.now b.now k n rest) }
{
    if l.len() < n {
        return false;
    }
    for i in 0..l.len() {
        if bits_of(l[i]) != expected_bits(b, k, n, i, rest) {
            return false;
        }
    }
    true
}
