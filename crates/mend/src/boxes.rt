// The option of `mend`, a box that takes the place of kind 6: its digits, its record, where it goes, and rule 3 on it.
ghost use Rattle.std.specs.Prelude.{◌≡◌, true, ◌+◌, ◌≤◌, length, take};
ghost use Rattle.form.specs.Form.{float};
ghost use Rattle.mend.specs.boxes.Option.{word_at, outline_of, gives, keeps_box, box_kind, is_box, option_record, put_length, kept_from, number_with};

use base::numbers::{REFUSED_BOX, REFUSED_COUNT};
use octets::get;
use octets::hex::{all_digits, byte_of};
use octets::patterns::float_of;

// The kind of a mesh without a box.
pub const UNCLIPPED: u8 = 6;

// The kinds of a box: by its center and size, by its edges.
fn box_kind(kind: u8) -> bool
    ensures { result ≡ box_kind kind }
{
    (kind == 1) | (kind == form::boxes::EDGES)
}

// Whether these are the digits of a box's record.
pub fn is_box(word: &[u8]) -> bool
    ensures { result ≡ is_box word.now }
{
    if word.len() != 66 {
        return false;
    }
    if all_digits(word) {
        return box_kind(byte_of(word[0], word[1]));
    }
    false
}

// The record of digits into a slice of its length: how long it is, and 0 where they are none.
fn record_by(word: &[u8], first: &mut [u8]) -> usize
    requires { length first.old ≡ 33 }
    ensures { (take result first.new ≡ option_record true word.now) × (result ≤ 33) }
{
    if is_box(word) {
        octets::hex::get_hex(word, first);
        return 33;
    }
    0
}

// The record of the option, where it is given.
pub fn record_of(given: bool, word: &[u8], first: &mut [u8]) -> usize
    requires { length first.old ≡ 33 }
    ensures { (take result first.new ≡ option_record given word.now) × (result ≤ 33) }
{
    if given {
        return record_by(word, first);
    }
    0
}

// Whether a record is given.
pub fn is_given(option: &[u8]) -> bool
    ensures { result ≡ gives (outline_of option.now) }
{
    if option.len() == 0 {
        return false;
    }
    true
}

// How many bytes of the option's record go into a form whose first record is of this kind: all in the place of kind 6.
pub fn put_length(clip: u8, given: usize) -> usize
    ensures { result ≡ put_length clip given }
{
    if clip != UNCLIPPED {
        return 0;
    }
    given
}

// From which byte on such a form is kept.
pub fn kept_from(clip: u8) -> usize
    ensures { (result ≡ kept_from clip) × (result ≤ 1) }
{
    if clip == UNCLIPPED {
        return 1;
    }
    0
}

fn number_at(first: &[u8], at: usize) -> f64
    requires { at + 8 ≤ length first.now }
    ensures { result ≡ float (word_at first.now at) }
{
    float_of(get(first, at, 8, true))
}

// Rule 3 of a record.
fn keeps(first: &[u8]) -> bool
    requires { length first.now ≡ 33 }
    ensures { result ≡ keeps_box (outline_of first.now) }
{
    let a = number_at(first, 1);
    let b = number_at(first, 9);
    let c = number_at(first, 17);
    let d = number_at(first, 25);
    let given = form::boxes::box_of(first[0], [a, b, c, d]);
    given.sound
}

// The number of a mending with this record put in: 3 comes after 1 and before all others.
pub fn number_with(first: &[u8], number: u32) -> u32
    ensures { result ≡ number_with first.now number }
{
    if first.len() != 33 {
        return number;
    }
    if keeps(first) {
        return number;
    }
    if number == REFUSED_COUNT {
        return number;
    }
    REFUSED_BOX
}
