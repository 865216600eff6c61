// The lent slices of mending: all cleared, and two lists of changes one after the other.
ghost use Rattle.std.specs.Prelude.{◌+◌, ◌*◌, ◌≤◌, ◌<◌, length};
ghost use Rattle.base.specs.numbers.Numbers.{EMPTY};
ghost use Rattle.mending.specs.changes.Changes.{longer};
ghost use Rattle.mending.specs.slices.Lent.{lent};
ghost use Rattle.mending.specs.slices.Steps.{ListedBoth, Cleared};

use crate::changes::list_changes;

// Every slice becomes `EMPTY`.
pub fn clear_all(work: &mut [u32], pairs: &mut [u32], hull: &mut [u32], changes: &mut [u32])
    ensures { Cleared (lent work.old pairs.old hull.old changes.old)
        (lent work.new pairs.new hull.new changes.new) }
{
    mesh::clear(work);
    mesh::clear(pairs);
    mesh::clear(hull);
    mesh::clear(changes);
}

// The changes from one list to another, and after them those between two more, then `EMPTY`; and how many there are of each.
pub fn list_both(
    old: &[u32],
    new: &[u32],
    before: &[u32],
    after: &[u32],
    changes: &mut [u32],
) -> (usize, usize)
    requires { (longer old.now new.now < EMPTY) × (longer before.now after.now < EMPTY)
        × (3 * (longer old.now new.now + longer before.now after.now) ≤ length changes.old) }
    ensures { ListedBoth old.now new.now before.now after.now changes.old changes.new result.0 result.1 }
{
    mesh::clear(changes);
    let first = list_changes(old, new, changes, 0);
    let then = list_changes(before, after, changes, first);
    (first, then)
}
