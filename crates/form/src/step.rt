// The form's reader without its lists: what is known between two bytes, and what one byte makes of it.
ghost use Rattle.std.specs.Prelude.{◌≡◌, ◌<◌};
ghost use Rattle.form.specs.step.Register.{shift};
ghost use Rattle.form.specs.step.Reader.{size_of, opens, room_left, follows, start, number_for, refused, begun, tally, inside, outside, finished, verdict};
ghost use Rattle.form.specs.step.Holds.{form_number};
ghost use Rattle.form.specs.step.Standing.{Ok};

use base::numbers::{REFUSED_FORM, REFUSED_UNCLIPPED};

const TOP_BYTE: u64 = 0x100_0000_0000_0000;
// bytes of the body of a box by its edges
const EDGES_SIZE: u64 = 32;

// What is known between two bytes. All but the flag in words of 64 bits, so that it can be kept as such between two calls.
#[derive(Clone, Copy)]
pub struct Reader {
    // whether a form may begin with kind 6, as forms of old did: set at the start, and it stays
    pub old: bool,
    // 0 nothing yet, 1 a box, its edges or (of old) none, 2 sites, 3 triangles, 4 hull, 5 ended
    pub stage: u64,
    // bytes of the present record's body that are to come
    pub left: u64,
    // the last eight bytes as a number
    pub word: u64,
    // bytes taken, up to the one refused
    pub at: u64,
    // 0, or the number of the refusal
    pub refusal: u64,
    // the kind that opened the form: 1 a box, 6 none, 7 a box by its edges; 0 before
    pub clip: u64,
    // whole records
    pub sites: u64,
    pub triangles: u64,
    pub hull: u64,
}

// What is known of a sound form.
#[derive(Clone, Copy, Debug, PartialEq, Eq)]
pub struct Sound {
    pub sites: usize,
    pub triangles: usize,
    pub hull: usize,
    // the kind that opened the form
    pub clip: u8,
}

// The number of a form's refusal, as the state keeps it between two calls, and the byte.
#[derive(Clone, Copy, Debug, PartialEq, Eq)]
pub struct Broken {
    pub number: u8,
    pub at: usize,
}

pub fn size(kind: u64) -> u64
    ensures { result ≡ size_of kind }
{
    if kind == 1 {
        return 32;
    }
    if kind == 2 {
        return 16;
    }
    if kind == 3 {
        return 24;
    }
    if kind == 4 {
        return 4;
    }
    if kind == 7 {
        return EDGES_SIZE;
    }
    0
}

pub fn opens(old: bool, kind: u64) -> bool
    ensures { result ≡ opens old kind }
{
    if kind == 1 {
        return true;
    }
    if kind == 6 {
        return old;
    }
    kind == 7
}

fn room_for(r: Reader, kind: u64) -> bool
    ensures { result ≡ room_left r kind }
{
    if kind == 2 {
        return r.sites < crate::SITES as u64;
    }
    if kind == 3 {
        return r.triangles < crate::TRIANGLES as u64;
    }
    if kind == 4 {
        return r.hull < crate::HULL as u64;
    }
    if kind == 5 {
        return r.stage < 5;
    }
    false
}

// Whether a record of this kind may come next.
fn follows(r: Reader, kind: u64) -> bool
    ensures { result ≡ follows r kind }
{
    if r.stage == 0 {
        return opens(r.old, kind);
    }
    if kind < r.stage {
        return false;
    }
    room_for(r, kind)
}

pub fn start(old: bool) -> Reader
    ensures { result ≡ start old }
{
    Reader {
        old: old,
        stage: 0,
        left: 0,
        word: 0,
        at: 0,
        refusal: 0,
        clip: 0,
        sites: 0,
        triangles: 0,
        hull: 0,
    }
}

// The number for a byte that may not come where a kind is expected: a mesh without a box is refused by name, until the end.
fn number_for(r: Reader, kind: u64) -> u64
    ensures { result ≡ number_for r kind }
{
    if kind != 6 {
        return REFUSED_FORM as u64;
    }
    if r.stage < 5 {
        return REFUSED_UNCLIPPED as u64;
    }
    REFUSED_FORM as u64
}

pub fn refused(r: Reader, number: u64) -> Reader
    ensures { result ≡ refused r number }
{
    let mut n = r;
    n.refusal = number;
    n
}

fn begun(r: Reader, kind: u64) -> Reader
    requires { Ok r }
    ensures { result ≡ begun r kind }
{
    let mut n = r;
    n.left = size(kind);
    n.at = n.at + 1;
    n.refusal = 0;
    if opens(r.old, kind) {
        n.stage = 1;
        n.clip = kind;
        return n;
    }
    n.stage = kind;
    n
}

pub fn outside(r: Reader, b: u8) -> Reader
    requires { Ok r }
    ensures { result ≡ outside r b }
{
    let kind = b as u64;
    if follows(r, kind) {
        return begun(r, kind);
    }
    refused(r, number_for(r, kind))
}

pub fn shifted(word: u64, b: u8) -> u64
    ensures { result ≡ shift word b }
{
    word / 256 + b as u64 * TOP_BYTE
}

fn tally(r: Reader, kind: u64, n: u64) -> u64
    requires { n < 1000 }
    ensures { result ≡ tally r kind n }
{
    if r.stage != kind {
        return n;
    }
    if r.left != 1 {
        return n;
    }
    n + 1
}

pub fn inside(r: Reader, b: u8) -> Reader
    requires { Ok r × (0 < r.left) }
    ensures { result ≡ inside r b }
{
    Reader {
        old: r.old,
        stage: r.stage,
        left: r.left - 1,
        word: shifted(r.word, b),
        at: r.at + 1,
        refusal: 0,
        clip: r.clip,
        sites: tally(r, 2, r.sites),
        triangles: tally(r, 3, r.triangles),
        hull: tally(r, 4, r.hull),
    }
}

// The state once it is said that no more will come: a form that has not ended is refused where it stands.
pub fn finished(r: Reader) -> Reader
    ensures { result ≡ finished r }
{
    if r.refusal != 0 {
        return r;
    }
    if r.stage == 5 {
        return r;
    }
    refused(r, REFUSED_FORM as u64)
}

// What the bytes taken so far are if no more come.
pub fn finish(r: Reader) -> Result<Sound, Broken>
    requires { Ok r }
    ensures { result ≡ verdict r }
{
    let n = finished(r);
    if n.refusal != 0 {
        return Err(Broken {
            number: n.refusal as u8,
            at: n.at as usize,
        });
    }
    Ok(Sound {
        sites: n.sites as usize,
        triangles: n.triangles as usize,
        hull: n.hull as usize,
        clip: n.clip as u8,
    })
}

// The number of a refused form; 0 for a sound one.
pub fn number_of(form: Result<Sound, Broken>) -> u32
    ensures { result ≡ form_number form }
{
    match form {
        Ok(_) => 0,
        Err(broken) => u32::from(broken.number),
    }
}
