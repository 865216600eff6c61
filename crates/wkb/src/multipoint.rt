// Sites read from a MultiPoint in Well-Known Binary (OGC 06-103r4, 8.2), in both byte orders.
ghost use Rattle.std.specs.Prelude.{◌≡◌, ℕ, ◌+◌, ◌*◌, ◌/◌, ◌^◌, ◌≤◌, ◌<◌, length, drop};
ghost use Rattle.std.specs.Result.{result_unwrap_or};
ghost use Rattle.base.specs.common.Decide.{Says};
ghost use Rattle.base.specs.refusal.Number.{answer_number};
ghost use Rattle.wkb.specs.multipoint.Fields.{field, StartsAs, point_count, point_place, Shape, coordinate_of};
ghost use Rattle.wkb.specs.multipoint.Promise.{SiteLimits, firsts, SoundPoints, entry_of, ReadAnswer, SoundAnswer};

use base::refusal::Refusal;
use octets::patterns::float_of;

// The number of the n bytes from a place on in the structure that begins at `at`, in its order.
fn number_at(file: &[u8], at: usize, from: usize, n: usize) -> u64
    requires { (n ≤ 8) × (1 ≤ from) × (at + from + n ≤ length file.now) }
    ensures value { result ≡ field (drop at file.now) from n }
    ensures small { result < 256 ^ n }
{
    octets::get(file, at + from, n, file[at] == 1)
}

// Whether a structure of this type begins at `at`.
fn starts(file: &[u8], at: usize, kind: u64) -> bool
    requires { at + 5 ≤ length file.now }
    ensures { Says result (StartsAs (drop at file.now) kind) }
{
    if file[at] > 1 {
        return false;
    }
    number_at(file, at, 1, 4) == kind
}

fn count_of(file: &[u8]) -> usize
    requires { 9 ≤ length file.now }
    ensures { (result ≡ point_count file.now) × (result < 2 ^ 32) }
{
    number_at(file, 0, 5, 4) as usize
}

// Whether each of the points begins as one.
fn points_start(file: &[u8], count: usize) -> bool
    requires { point_place count ≤ length file.now }
    ensures { Says result ((i : ℕ) → i < count → StartsAs (drop (point_place i) file.now) 1) }
{
    (0..count).all(|i| starts(file, 9 + 21 * i, 1))
}

// Whether the file is a MultiPoint.
fn shape_ok(file: &[u8]) -> bool
    ensures { Says result (Shape file.now) }
{
    if file.len() < 9 {
        return false;
    }
    if !starts(file, 0, 4) {
        return false;
    }
    let count = count_of(file);
    if file.len() != 9 + 21 * count {
        return false;
    }
    points_start(file, count)
}

// Coordinate k of a file that has one.
fn coordinate(file: &[u8], k: usize) -> f64
    requires { point_place (k / 2) + 21 ≤ length file.now }
    ensures { result ≡ coordinate_of file.now k }
{
    float_of(number_at(file, 9 + 21 * (k / 2), 5 + 8 * (k % 2), 8))
}

// Rule 6 on each coordinate of so many sites.
fn coordinates_ok(file: &[u8], count: usize) -> bool
    requires { (count ≡ point_count file.now) × (point_place count ≤ length file.now) }
    ensures { Says result (SoundPoints file.now) }
{
    (0..2 * count).all(|k| plane::points::coordinate_ok(coordinate(file, k)))
}

// What the output holds at place k.
fn entry(file: &[u8], count: usize, k: usize) -> f64
    requires { (count ≡ point_count file.now) × (point_place count ≤ length file.now) }
    ensures { result ≡ entry_of file.now k }
{
    if k >= 2 * count {
        return 0.0;
    }
    coordinate(file, k)
}

// The coordinates, then +0 to the end.
fn put_sites(file: &[u8], count: usize, sites: &mut [f64])
    requires { (count ≡ point_count file.now) × (point_place count ≤ length file.now) }
    ensures { sites.new ≡ firsts (entry_of file.now) (length sites.old) }
{
    for (k, site) in sites.iter_mut().enumerate() {
        *site = entry(file, count, k);
    }
}

pub fn limits_ok(count: usize) -> bool
    ensures { Says result (SiteLimits count) }
{
    if count < 3 {
        return false;
    }
    count <= 65536
}

// Rules 1, 2 and 6 on a file that is a MultiPoint, and its sites.
fn read_sound(file: &[u8], sites: &mut [f64]) -> Result<u32, Refusal>
    requires { Shape file.now }
    ensures { SoundAnswer file.now sites.old sites.new (result_unwrap_or result 0) (answer_number result) }
{
    let n = count_of(file);
    if !limits_ok(n) {
        return Err(Refusal::Count);
    }
    if sites.len() < 2 * n {
        return Err(Refusal::Room);
    }
    if !coordinates_ok(file, n) {
        return Err(Refusal::Coordinate);
    }
    put_sites(file, n, sites);
    Ok(n as u32)
}

// Rule 21 over the whole file, then the others. Answers how many sites were read; refused, the sites are as they were.
pub fn read(file: &[u8], sites: &mut [f64]) -> Result<u32, Refusal>
    ensures { ReadAnswer file.now sites.old sites.new (result_unwrap_or result 0) (answer_number result) }
{
    if !shape_ok(file) {
        return Err(Refusal::Points);
    }
    read_sound(file, sites)
}
