// Square root, magnitude and signum, each on a bit pattern and on an f64.
ghost use Rattle.std.specs.Prelude.{◌≡◌, ◌%◌, ◌^◌};
ghost use Rattle.std.specs.Float.{binary64};
ghost use Rattle.std.specs.Float.Ieee.{of_bits, to_bits};
ghost use Rattle.root.specs.Root.{Root, RootBits, magnitude, signum};

// The square root: nearest, ties to even. Of a NaN or below 0 it is 0x7FF8000000000000.
pub fn voronoi_root_bits(b: u64) -> u64
    ensures { RootBits b result }
{
    root::root_bits(b)
}

pub fn voronoi_root(x: f64) -> f64
    ensures { Root x result }
{
    root::root(x)
}

// The sign bit cleared.
pub fn voronoi_magnitude_bits(b: u64) -> u64
    ensures { result ≡ b % 2 ^ 63 }
{
    root::magnitude_bits(b)
}

pub fn voronoi_magnitude(x: f64) -> f64
    ensures { result ≡ magnitude x }
{
    root::magnitude(x)
}

// 1 with the sign of the argument, that of a zero too. Of a NaN it is 0x7FF8000000000000.
pub fn voronoi_signum_bits(b: u64) -> u64
    ensures { result ≡ to_bits binary64 (signum (of_bits binary64 b)) }
{
    root::signum_bits(b)
}

pub fn voronoi_signum(x: f64) -> f64
    ensures { result ≡ signum x }
{
    root::signum(x)
}
