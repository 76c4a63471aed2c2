//! Ranges that end before they begin.

ghost use Rattle.std.specs.Prelude.{◌≡◌, nat_lt};
ghost use Rattle.edit_checks.specs.Ranges.{bad_range_of_items};
ghost use Rattle.edit_rules.specs.Refusals.{refused_if};

use doc_model::{EditOp, Refusal};

/// The refusal by a range of items that ends before it begins. It takes no memory.
pub fn bad_range_of_items(op: &EditOp) -> Option<Refusal>
    ensures { result ≡ bad_range_of_items op.now }
{
    match op {
        EditOp::DeleteRange { from, to, .. } => backwards(*from, *to),
        EditOp::SetSpan { from, to, .. } => backwards(*from, *to),
        _ => None,
    }
}

// The refusal where a range ends before it begins.
fn backwards(from: u32, to: u32) -> Option<Refusal>
    ensures { result ≡ refused_if (nat_lt to from) (Refusal.BadRange from to) }
{
    if to < from {
        Some(Refusal::BadRange(from, to))
    } else {
        None
    }
}
