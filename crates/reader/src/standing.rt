// Whether a reader's state is one that a reading leaves.
ghost use Rattle.std.specs.Prelude.{◌≡◌, true, ◌+◌, ◌-◌, ◌^◌, ◌≤◌, ◌<◌};
ghost use Rattle.form.specs.step.Standing.{under, body_of, kinds, bodies};
ghost use Rattle.reader.specs.standing.Stands.{both, valid_counts, valid_refusal, valid_kind, count_at, valid_records, valid_place, valid_register, valid_parts, is_valid};

use base::numbers::{REFUSED_FORM, REFUSED_UNCLIPPED};
use form::step::{Reader, opens, size};

// No number is past what a form can have.
fn valid_counts(r: Reader) -> bool
    ensures { result ≡ valid_counts r }
{
    if 5 < r.stage {
        return false;
    }
    if (form::SITES as u64) < r.sites {
        return false;
    }
    if (form::TRIANGLES as u64) < r.triangles {
        return false;
    }
    if (form::HULL as u64) < r.hull {
        return false;
    }
    if 32 < r.left {
        return false;
    }
    r.at < 7000
}

// A refusal's number, or 0. 20 stands only where a kind is expected and the form has not ended.
fn valid_refusal(refusal: u64, stage: u64, left: u64) -> bool
    ensures { result ≡ valid_refusal refusal stage left }
{
    if refusal == 0 {
        return true;
    }
    if refusal != REFUSED_UNCLIPPED as u64 {
        return refusal == REFUSED_FORM as u64;
    }
    if left != 0 {
        return false;
    }
    stage < 5
}

// The kind that opened the form is one that opens forms.
fn valid_kind(old: bool, stage: u64, clip: u64) -> bool
    ensures { result ≡ valid_kind old stage clip }
{
    if stage == 0 {
        return clip == 0;
    }
    opens(old, clip)
}

// n records of this kind at this stage: none before it, one at least in it.
fn count_at(stage: u64, kind: u64, n: u64, limit: u64) -> bool
    ensures { result ≡ count_at stage kind n limit }
{
    if limit < n {
        return false;
    }
    if stage < kind {
        return n == 0;
    }
    if stage == kind {
        return 0 < n;
    }
    true
}

// The records of this kind that have begun: those that are whole, and that under way.
fn begun(r: Reader, kind: u64, whole: u64) -> u64
    requires { whole < 1000 }
    ensures is { result ≡ whole + under r kind }
    ensures small { result ≤ whole + 1 }
{
    if r.stage != kind {
        return whole;
    }
    if r.left == 0 {
        return whole;
    }
    whole + 1
}

pub fn both(a: bool, b: bool) -> bool
    ensures { result ≡ both a b }
{
    if a {
        return b;
    }
    false
}

fn valid_records(r: Reader) -> bool
    requires { valid_counts r ≡ true }
    ensures { result ≡ valid_records r }
{
    let sites = count_at(r.stage, 2, begun(r, 2, r.sites), form::SITES as u64);
    let triangles = count_at(r.stage, 3, begun(r, 3, r.triangles), form::TRIANGLES as u64);
    let hull = count_at(r.stage, 4, begun(r, 4, r.hull), form::HULL as u64);
    both(sites, both(triangles, hull))
}

// The length of the present record's body.
fn body_of(r: Reader) -> u64
    ensures { result ≡ body_of r }
{
    if r.stage == 1 {
        return size(r.clip);
    }
    size(r.stage)
}

// The bytes of all bodies that have begun.
fn bodies(r: Reader) -> u64
    requires { valid_counts r ≡ true }
    ensures is { result ≡ bodies r }
    ensures small { result < 10000 }
{
    let first = size(r.clip);
    let sites = begun(r, 2, r.sites);
    let triangles = begun(r, 3, r.triangles);
    let hull = begun(r, 4, r.hull);
    first + 16 * sites + 24 * triangles + 4 * hull
}

// How many records have begun.
fn kinds(r: Reader) -> u64
    requires { valid_counts r ≡ true }
    ensures is { result ≡ kinds r }
    ensures small { result < 1000 }
{
    let sites = begun(r, 2, r.sites);
    let triangles = begun(r, 3, r.triangles);
    let hull = begun(r, 4, r.hull);
    if r.stage == 0 {
        return sites + triangles + hull;
    }
    if r.stage == 5 {
        return 1 + sites + triangles + hull + 1;
    }
    1 + sites + triangles + hull
}

// The byte is the one that the records give.
fn valid_place(r: Reader) -> bool
    requires { valid_counts r ≡ true }
    ensures { result ≡ valid_place r }
{
    if body_of(r) < r.left {
        return false;
    }
    r.at + r.left == kinds(r) + bodies(r)
}

// 256 to the power 8 - n.
fn low(n: u64) -> u64
    requires { (0 < n) × (n < 8) }
    ensures is { result ≡ 256 ^ (8 - n) }
    ensures more { 0 < result }
{
    if n == 1 {
        return 0x100_0000_0000_0000;
    }
    if n == 2 {
        return 0x1_0000_0000_0000;
    }
    if n == 3 {
        return 0x100_0000_0000;
    }
    if n == 4 {
        return 0x1_0000_0000;
    }
    if n == 5 {
        return 0x100_0000;
    }
    if n == 6 {
        return 0x1_0000;
    }
    0x100
}

// The register after n bytes: each comes in at its top, so that its low bytes are 0 before the eighth.
fn valid_register(word: u64, n: u64) -> bool
    ensures { result ≡ valid_register word n }
{
    if n == 0 {
        return word == 0;
    }
    if n < 8 {
        return word % low(n) == 0;
    }
    true
}

// The bytes of bodies that have come.
fn taken(r: Reader) -> u64
    requires { valid_counts r ≡ true }
    ensures { result ≡ bodies r - r.left }
{
    let all = bodies(r);
    if all < r.left {
        return 0;
    }
    all - r.left
}

fn valid_parts(r: Reader) -> bool
    requires { valid_counts r ≡ true }
    ensures { result ≡ valid_parts r }
{
    let first = both(
        valid_refusal(r.refusal, r.stage, r.left),
        valid_kind(r.old, r.stage, r.clip),
    );
    let last = both(valid_place(r), valid_register(r.word, taken(r)));
    both(first, both(valid_records(r), last))
}

// Whether bytes lead to this state.
pub fn is_valid(r: Reader) -> bool
    ensures { result ≡ is_valid r }
{
    if valid_counts(r) {
        return valid_parts(r);
    }
    false
}
