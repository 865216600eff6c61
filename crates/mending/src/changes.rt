// The list of changes between an old and a new list: place, old value, new value.
ghost use Rattle.std.specs.Prelude.{◌≡◌, ◌+◌, ◌-◌, ◌*◌, ◌≤◌, ◌<◌, length, get_or};
ghost use Rattle.std.proofs.lemmas.List.Edits.{sets};
ghost use Rattle.base.specs.numbers.Numbers.{EMPTY};
ghost use Rattle.mending.specs.changes.Changes.{longer, same_at, change_at, flat_changes, changes_of};

use base::numbers::EMPTY;

// The entry at place i, or `EMPTY` where the list has no such place.
fn entry(list: &[u32], i: usize) -> u32
    ensures { result ≡ get_or list.now i EMPTY }
{
    if list.len() <= i {
        return EMPTY;
    }
    list[i]
}

// Whether both lists have a place i and the same entry there.
fn same_at(old: &[u32], new: &[u32], i: usize) -> bool
    ensures { result ≡ same_at old.now new.now i }
{
    if old.len() <= i {
        return false;
    }
    if new.len() <= i {
        return false;
    }
    old[i] == new[i]
}

// Writes the change at place i as the one of number n, if there is one, and answers the number of the next.
fn put_change(old: &[u32], new: &[u32], i: usize, changes: &mut [u32], n: usize) -> usize
    requires { (i < longer old.now new.now) × (longer old.now new.now < EMPTY) × (3 * n + 3 ≤ length changes.old) }
    ensures { (result ≡ n + length (change_at old.now new.now i))
        × (changes.new ≡ sets changes.old (3 * n) (flat_changes (change_at old.now new.now i))) }
{
    if same_at(old, new, i) {
        return n;
    }
    let at = 3 * n;
    changes[at] = i as u32;
    changes[at + 1] = entry(old, i);
    changes[at + 2] = entry(new, i);
    n + 1
}

// The longer of two lengths.
fn longest(a: usize, b: usize) -> usize
    ensures { result ≡ a + (b - a) }
{
    if a < b {
        return b;
    }
    a
}

// Writes the changes from the one of number `from` on, and answers how many there are.
pub fn list_changes(old: &[u32], new: &[u32], changes: &mut [u32], from: usize) -> usize
    requires { (longer old.now new.now < EMPTY) × (3 * (from + longer old.now new.now) ≤ length changes.old) }
    ensures { (result ≡ length (changes_of old.now new.now))
        × (changes.new ≡ sets changes.old (3 * from) (flat_changes (changes_of old.now new.now))) }
{
    let end = longest(old.len(), new.len());
    let mut n = from;
    for i in 0..end {
        n = put_change(old, new, i, changes, n);
    }
    n - from
}
