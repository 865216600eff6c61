// The exports of module roots of crate voronoi, which says what each does.
ghost use Rattle.std.specs.Prelude.{◌≡◌, ◌%◌, ◌^◌};
ghost use Rattle.std.specs.Float.{binary64};
ghost use Rattle.std.specs.Float.Ieee.{of_bits, to_bits};
ghost use Rattle.root.specs.Root.{Root, RootBits, magnitude, signum};

#[unsafe(no_mangle)]
pub extern "C" fn voronoi_root_bits(b: u64) -> u64
    ensures { RootBits b result }
{
    voronoi::roots::voronoi_root_bits(b)
}

#[unsafe(no_mangle)]
pub extern "C" fn voronoi_root(x: f64) -> f64
    ensures { Root x result }
{
    voronoi::roots::voronoi_root(x)
}

#[unsafe(no_mangle)]
pub extern "C" fn voronoi_magnitude_bits(b: u64) -> u64
    ensures { result ≡ b % 2 ^ 63 }
{
    voronoi::roots::voronoi_magnitude_bits(b)
}

#[unsafe(no_mangle)]
pub extern "C" fn voronoi_magnitude(x: f64) -> f64
    ensures { result ≡ magnitude x }
{
    voronoi::roots::voronoi_magnitude(x)
}

#[unsafe(no_mangle)]
pub extern "C" fn voronoi_signum_bits(b: u64) -> u64
    ensures { result ≡ to_bits binary64 (signum (of_bits binary64 b)) }
{
    voronoi::roots::voronoi_signum_bits(b)
}

#[unsafe(no_mangle)]
pub extern "C" fn voronoi_signum(x: f64) -> f64
    ensures { result ≡ signum x }
{
    voronoi::roots::voronoi_signum(x)
}
