// Rule 18: each entry of a list names one of so many vertices, or sites.
ghost use Rattle.base.specs.common.Decide.{Says};
ghost use Rattle.arguments.specs.entries.Named.{EntriesNamed};

// Whether each entry names one of so many.
pub fn named(entries: &[u32], count: usize) -> bool
    ensures { Says result (EntriesNamed entries.now count) }
{
    entries.iter().all(|e| base::numbers::wide(*e) < count)
}
