// The sites of a form as whole numbers, where they are on the grid: what `grid::floats` makes of whole numbers, read back.
ghost use Rattle.std.specs.Prelude.{◌≡◌, ◌≤◌, length, take};
ghost use Rattle.nearest.specs.whole_sites.Whole.{whole_kept, whole_number, wholes_of};

// The whole number v, where it is of the profile and x is its float; else 8,193, which is beyond.
fn kept(v: i64, x: f64) -> i32
    ensures { result ≡ whole_kept v x }
{
    if v < -8192 {
        return 8193;
    }
    if 8192 < v {
        return 8193;
    }
    let w = v as i32;
    if w as f64 == x {
        return w;
    }
    8193
}

// The whole number that x is, where it is one of the profile; else 8,193.
fn whole_of(x: f64) -> i32
    ensures { result ≡ whole_number x }
{
    if !(-9223372036854775808.0 <= x) {
        return 8193;
    }
    if !(x < 9223372036854775808.0) {
        return 8193;
    }
    kept(std::num::truncating_f64_to_i64(x), x)
}

// The whole numbers of the sites, over the beginning of the slice.
pub fn to_grid(sites: &[f64], grid: &mut [i32])
    requires { length sites.now ≤ length grid.old }
    ensures { take (length sites.now) grid.new ≡ wholes_of sites.now }
{
    for (i, x) in sites.iter().enumerate() {
        grid[i] = whole_of(*x);
    }
}
