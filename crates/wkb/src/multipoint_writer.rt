// Sites written as a MultiPoint in Well-Known Binary (OGC 06-103r4, 8.2), little-endian throughout.
ghost use Rattle.std.specs.Prelude.{true, ◌+◌, ◌*◌, ◌/◌, ◌≤◌, ◌<◌, length};
ghost use Rattle.std.specs.Result.{result_unwrap_or};
ghost use Rattle.base.specs.refusal.Number.{answer_number};
ghost use Rattle.octets.specs.Bytes.{each};
ghost use Rattle.octets.specs.Wrote.{Wrote};
ghost use Rattle.wkb.specs.multipoint.MultiPoint.{file_point, start_bytes, file_point_bytes};
ghost use Rattle.wkb.specs.multipoint.Fields.{point_place};
ghost use Rattle.wkb.specs.multipoint.Promise.{firsts};
ghost use Rattle.wkb.specs.multipoint_writer.Promise.{site_point, file_of, WriteAnswer};

use base::refusal::Refusal;
use octets::patterns::pattern;
use octets::put_le;

// The mark and the type.
fn put_start(out: &mut [u8], at: usize, kind: u64) -> usize
    requires { at + 5 ≤ length out.old }
    ensures { Wrote out.old out.new at result (start_bytes true kind) }
{
    let number = put_le(out, at, 1, 1);
    put_le(out, number, 4, kind)
}

fn put_point(out: &mut [u8], at: usize, x: u64, y: u64) -> usize
    requires { at + 21 ≤ length out.old }
    ensures { Wrote out.old out.new at result (file_point_bytes (file_point true x y)) }
{
    let first = put_start(out, at, 1);
    let second = put_le(out, first, 8, x);
    put_le(out, second, 8, y)
}

// Site i as a point.
fn put_site(out: &mut [u8], at: usize, sites: &[f64], i: usize) -> usize
    requires { (at + 21 ≤ length out.old) × (2 * i + 1 < length sites.now) }
    ensures { Wrote out.old out.new at result (file_point_bytes (site_point sites.now i)) }
{
    let x = pattern(sites[2 * i]);
    let y = pattern(sites[2 * i + 1]);
    put_point(out, at, x, y)
}

// The sites' points, one after the other.
fn put_points(out: &mut [u8], at: usize, sites: &[f64]) -> usize
    requires { at + 21 * (length sites.now / 2) ≤ length out.old }
    ensures { Wrote out.old out.new at result (each file_point_bytes (firsts (site_point sites.now) (length sites.now / 2))) }
{
    let count = sites.len() / 2;
    let mut end = at;
    for i in 0..count {
        end = put_site(out, end, sites, i);
    }
    end
}

fn put_file(out: &mut [u8], sites: &[f64]) -> usize
    requires { point_place (length sites.now / 2) ≤ length out.old }
    ensures { Wrote out.old out.new 0 result (file_of sites.now) }
{
    let number = put_start(out, 0, 4);
    let count = sites.len() / 2;
    let points = put_le(out, number, 4, count as u64);
    put_points(out, points, sites)
}

// Rules 1, 2 and 6, and the file. Answers how many bytes were written; refused, the output is as it was.
pub fn write(sites: &[f64], out: &mut [u8]) -> Result<usize, Refusal>
    ensures { WriteAnswer sites.now out.old out.new (result_unwrap_or result 0) (answer_number result) }
{
    if sites.len() % 2 != 0 {
        return Err(Refusal::Count);
    }
    let count = sites.len() / 2;
    if !crate::multipoint::limits_ok(count) {
        return Err(Refusal::Count);
    }
    if out.len() < 9 + 21 * count {
        return Err(Refusal::Room);
    }
    if plane::points::first_bad_site(sites) < count {
        return Err(Refusal::Coordinate);
    }
    Ok(put_file(out, sites))
}
