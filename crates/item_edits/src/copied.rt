//! Items of which a range was replaced.

ghost use Rattle.std.specs.Prelude.{◌≡◌, ◌≤◌, length, IfOk};
ghost use Rattle.std.specs.List.{splice};

use doc_model::Item;
use run_text::RunText;
use std::alloc::AllocError;

/// A copy of the items with copies of others in the place of those from `from` up to `to`.
pub(crate) fn spliced(
    items: &RunText<Item>,
    from: usize,
    to: usize,
    others: &[Item],
) -> Result<RunText<Item>, AllocError>
    requires in_order { from ≤ to }
    requires in_range { to ≤ length items.now }
    ensures { IfOk result (λ new. new ≡ splice items.now from to others.now) }
{
    let mut copy = items.clone()?;
    copy.splice(from, to, others)?;
    Ok(copy)
}
