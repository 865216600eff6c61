// What an audit asks of its arguments: 1, 3, 6, 16 on both lists of offsets, 18 on both lists of entries, 24.
ghost use Rattle.std.specs.Prelude.{◌≡◌, true, ◌⊎◌, length};
ghost use Rattle.base.specs.common.Decide.{Says};
ghost use Rattle.base.specs.refusal.Number.{answer_number};
ghost use Rattle.walks.specs.shared.Cells.{Cells};
ghost use Rattle.areas.specs.Promise.{entries_of_all};
ghost use Rattle.auditing.specs.nearer.Nearer.{no_lists};
ghost use Rattle.auditing.specs.rules.Rules.{AuditCounts, ListsCut, GivenNumber, AuditEntries, AuditNumber};

use crate::nearer::no_lists;
use arguments::asking::cells_ok;
use base::refusal::Refusal;

// Rule 1, on the lengths of the lists and the tolerance.
pub fn counts_ok(sites: usize, vertices: usize, indexes: usize, bits: u32) -> bool
    ensures { Says result (AuditCounts sites vertices indexes bits) }
{
    if sites % 2 != 0 {
        return false;
    }
    if sites / 2 < 3 {
        return false;
    }
    if 65536 < sites / 2 {
        return false;
    }
    if vertices % 2 != 0 {
        return false;
    }
    if 52 < bits {
        return false;
    }
    if 16777216 < indexes {
        return false;
    }
    true
}

// 1, 3 and 6.
fn ask_given(
    sound: bool,
    sites: &[f64],
    vertices: usize,
    indexes: usize,
    bits: u32,
) -> Result<(), Refusal>
    ensures { GivenNumber sound sites.now vertices indexes bits (answer_number result) }
{
    if !counts_ok(sites.len(), vertices, indexes, bits) {
        return Err(Refusal::Count);
    }
    if !sound {
        return Err(Refusal::Box);
    }
    if plane::points::first_bad_site(sites) < sites.len() / 2 {
        return Err(Refusal::Coordinate);
    }
    Ok(())
}

// No lists of others, or a cut for each site.
fn lists_ok(starts: &[u32], others: &[u32], count: usize) -> bool
    ensures { Says result (ListsCut starts.now others.now count) }
{
    if no_lists(starts, others) {
        return true;
    }
    cells_ok(starts, others, count)
}

// The entries up to the last offset.
fn used<'a>(offsets: &[u32], indexes: &'a [u32]) -> &'a [u32]
    requires { Cells offsets.now (length indexes.now) }
    ensures { result.now ≡ entries_of_all offsets.now indexes.now }
{
    let last = offsets.len() - 1;
    let end = base::numbers::wide(offsets[last]);
    &indexes[..end]
}

// The same where there may be no lists.
fn held<'a>(starts: &[u32], others: &'a [u32]) -> &'a [u32]
    requires { (no_lists starts.now others.now ≡ true) ⊎ Cells starts.now (length others.now) }
    ensures { result.now ≡ entries_of_all starts.now others.now }
{
    if no_lists(starts, others) {
        return others;
    }
    used(starts, others)
}

// 18 twice, and 24.
fn ask_entries(
    vertices: &[f64],
    entries: &[u32],
    others: &[u32],
    count: usize,
) -> Result<(), Refusal>
    ensures { AuditEntries vertices.now entries.now others.now count (answer_number result) }
{
    if !arguments::entries::named(entries, vertices.len() / 2) {
        return Err(Refusal::Entry);
    }
    if !arguments::entries::named(others, count) {
        return Err(Refusal::Entry);
    }
    if !areas::within(vertices, entries) {
        return Err(Refusal::Corner);
    }
    Ok(())
}

// All of them.
pub fn ask(
    sound: bool,
    sites: &[f64],
    vertices: &[f64],
    offsets: &[u32],
    indexes: &[u32],
    starts: &[u32],
    others: &[u32],
    bits: u32,
) -> Result<(), Refusal>
    ensures { AuditNumber sound sites.now vertices.now offsets.now indexes.now starts.now others.now bits (answer_number result) }
{
    ask_given(sound, sites, vertices.len(), indexes.len(), bits)?;
    let count = sites.len() / 2;
    if !cells_ok(offsets, indexes, count) {
        return Err(Refusal::Offsets);
    }
    if !lists_ok(starts, others, count) {
        return Err(Refusal::Offsets);
    }
    ask_entries(
        vertices,
        used(offsets, indexes),
        held(starts, others),
        count,
    )
}
