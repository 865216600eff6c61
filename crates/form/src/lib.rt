// Reads the program's form: one byte at a time by a state that is passed by value, each number stored as soon as its last byte has come.

#![tactic(auto)]

pub mod boxes;
pub mod mesh;
pub mod step;

ghost use Rattle.std.specs.Prelude.{◌≡◌, ◌-◌, ◌/◌, ◌≤◌, ◌<◌, false, ltb, length};
ghost use Rattle.base.specs.common.Pick.{pick};
ghost use Rattle.form.specs.step.Reader.{broken, start, put_float, put_link, reading, filled_by, take, takes};
ghost use Rattle.form.specs.step.Holds.{ListRoom, Reads};
ghost use Rattle.form.specs.step.Standing.{Ok};

use crate::step::{Broken, Reader, Sound, finish, inside, outside, shifted, start};
use octets::patterns::float_of;

// The most sites, triangles and hull sites that a form has, and so many numbers of each list.
pub const SITES: usize = 96;

pub const TRIANGLES: usize = 192;

pub const HULL: usize = 96;

pub const COORDINATES: usize = 2 * SITES;

pub const LINKS: usize = 3 * TRIANGLES;
// The longest form, a record each of its kind: 6,946 bytes. One more decides what an input is, however long it goes on.
pub const LONGEST: usize = 33 + 17 * SITES + 25 * TRIANGLES + 5 * HULL + 1;

pub const BYTES: usize = LONGEST + 1;

const TOP_LINK: u64 = 0x1_0000_0000;

fn put_float(l: &mut [f64], last: u64, left: u64, word: u64)
    requires { (left / 8 ≤ last) × (last < length l.old) }
    ensures { l.new ≡ put_float l.old last left word }
{
    if left % 8 != 0 {
        return;
    }
    l[(last - left / 8) as usize] = float_of(word);
}

fn put_link(l: &mut [u32], last: u64, left: u64, word: u64)
    requires { (left / 4 ≤ last) × (last < length l.old) }
    ensures { l.new ≡ put_link l.old last left word }
{
    if left % 4 != 0 {
        return;
    }
    l[(last - left / 4) as usize] = (word / TOP_LINK) as u32;
}

// One byte of a triangle's body.
fn put_triangle(triangles: &mut [u32], halfedges: &mut [u32], last: u64, left: u64, word: u64)
    requires { (left < 24) × (2 ≤ last) × (last < length triangles.old) × (last < length halfedges.old) }
    ensures sites { triangles.new ≡ pick (ltb left 12) (λ _. triangles.old) (λ _. put_link triangles.old last (left - 12) word) }
    ensures pairs { halfedges.new ≡ pick (ltb left 12) (λ _. put_link halfedges.old last left word) (λ _. halfedges.old) }
{
    if left < 12 {
        put_link(halfedges, last, left, word);
        return;
    }
    put_link(triangles, last, left - 12, word);
}

// One byte of a body, as far as the lists go.
fn fill(
    r: Reader,
    b: u8,
    bounds: &mut [f64],
    sites: &mut [f64],
    triangles: &mut [u32],
    halfedges: &mut [u32],
    hull: &mut [u32],
)
    requires { (Ok r) × (broken r ≡ false) × (0 < r.left) × (ListRoom bounds.old sites.old triangles.old halfedges.old hull.old) }
    ensures { reading r bounds.new sites.new triangles.new halfedges.new hull.new ≡ filled_by r b
        bounds.old sites.old triangles.old halfedges.old hull.old }
{
    let left = r.left - 1;
    let word = shifted(r.word, b);
    if r.stage == 1 {
        put_float(bounds, 3, left, word);
        return;
    }
    if r.stage == 2 {
        put_float(sites, 2 * r.sites + 1, left, word);
        return;
    }
    if r.stage == 3 {
        put_triangle(triangles, halfedges, 3 * r.triangles + 2, left, word);
        return;
    }
    if r.stage == 4 {
        put_link(hull, r.hull, left, word);
    }
}

// One byte.
pub fn take(
    r: Reader,
    b: u8,
    bounds: &mut [f64],
    sites: &mut [f64],
    triangles: &mut [u32],
    halfedges: &mut [u32],
    hull: &mut [u32],
) -> Reader
    requires { (Ok r) × (ListRoom bounds.old sites.old triangles.old halfedges.old hull.old) }
    ensures all { reading result bounds.new sites.new triangles.new halfedges.new hull.new ≡ take
        (reading r bounds.old sites.old triangles.old halfedges.old hull.old) b }
{
    if r.refusal != 0 {
        return r;
    }
    if r.left == 0 {
        return outside(r, b);
    }
    fill(r, b, bounds, sites, triangles, halfedges, hull);
    inside(r, b)
}

// Bytes, one after the other.
pub fn feed(
    r: Reader,
    bytes: &[u8],
    bounds: &mut [f64],
    sites: &mut [f64],
    triangles: &mut [u32],
    halfedges: &mut [u32],
    hull: &mut [u32],
) -> Reader
    requires { (Ok r) × (ListRoom bounds.old sites.old triangles.old halfedges.old hull.old) }
    ensures all { reading result bounds.new sites.new triangles.new halfedges.new hull.new ≡ takes
        (reading r bounds.old sites.old triangles.old halfedges.old hull.old) bytes.now }
    ensures ok { Ok result }
{
    let mut n = r;
    for b in bytes {
        n = take(n, *b, bounds, sites, triangles, halfedges, hull);
    }
    n
}

// A whole form; with `old`, one of old is read too.
pub fn read(
    old: bool,
    bytes: &[u8],
    bounds: &mut [f64],
    sites: &mut [f64],
    triangles: &mut [u32],
    halfedges: &mut [u32],
    hull: &mut [u32],
) -> Result<Sound, Broken>
    requires { ListRoom bounds.old sites.old triangles.old halfedges.old hull.old }
    ensures { Reads bytes.now (reading (start old) bounds.old sites.old triangles.old
        halfedges.old hull.old) result bounds.new sites.new triangles.new halfedges.new hull.new }
{
    let r = feed(start(old), bytes, bounds, sites, triangles, halfedges, hull);
    finish(r)
}
