//! The calls of a shelf or a sink in memory, and the counts of calls and faults.
ghost use Rattle.std.specs.Prelude.{◌≡◌, ◌↔◌, IsTrue, Contains};
ghost use Rattle.quill_io.specs.Faults.{next_count};

// Whether the call of this number is among those that are to fail.
pub(crate) fn is_listed(failing: &[u32], call: u64) -> bool
    ensures { IsTrue result ↔ Contains failing.now call }
{
    failing.iter().any(|&number| u64::from(number) == call)
}

// The count after one more, which stands still at the end of its type.
pub(crate) fn one_more(count: u64) -> u64
    ensures { result ≡ next_count count }
{
    count.saturating_add(1)
}
