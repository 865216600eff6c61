// Entries chained in buckets, in lent work of some words to an entry: at the first word of bucket m the last entry in it, as one more than its number, or 0; at the second word of entry k
// the one before it in its bucket, in the same way.
ghost use Rattle.std.specs.Prelude.{◌≡◌, suc, ◌+◌, ◌*◌, ◌^◌, ◌%◌, ◌≤◌, ◌<◌, length, get_or, set};

// The bucket of a number, of so many.
pub fn bucket(number: u64, count: usize) -> usize
    requires { 0 < count }
    ensures { (result ≡ number % count) × (result < count) }
{
    (number % count as u64) as usize
}

// Puts entry k in front of the chain of bucket m.
pub fn push_front<const WORDS: usize>(work: &mut [u32], k: usize, m: usize)
    requires { (WORDS * k + 1 < length work.old) × (WORDS * m < length work.old) × (k < 2 ^ 24) }
    ensures { work.new ≡ set (set work.old (WORDS * k + 1) (get_or work.old (WORDS * m) 0)) (WORDS * m) (suc k) }
{
    work[WORDS * k + 1] = work[WORDS * m];
    work[WORDS * m] = (k + 1) as u32;
}
