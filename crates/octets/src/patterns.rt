// The pattern of a float, and the float of a pattern. The language has one NaN, without a pattern: it goes out as 0x7FF8000000000000, and a NaN's pattern is not kept.
ghost use Rattle.std.specs.Prelude.{◌≡◌};
ghost use Rattle.std.specs.Float.{binary64};
ghost use Rattle.std.specs.Float.Ieee.{to_bits, of_bits};

use root::{INFINITY, QUIET, SIGN};

pub fn pattern(x: f64) -> u64
    ensures { result ≡ to_bits binary64 x }
{
    if x != x {
        return QUIET;
    }
    f64::to_bits(x)
}

pub fn float_of(bits: u64) -> f64
    ensures { result ≡ of_bits binary64 bits }
{
    if INFINITY < bits % SIGN {
        return 0.0 / 0.0;
    }
    f64::from_bits(bits)
}
