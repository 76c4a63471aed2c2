//! Parts of items, and items that are put together.

ghost use Rattle.std.specs.Prelude.{◌≡◌, ◌≤◌, ◌++◌, length, IfOk};
ghost use Rattle.std.specs.List.{between};

use doc_model::Item;
use run_text::RunText;
use std::alloc::{AllocError, Global};

/// Copies of the items from `from` up to `to`, counted from 0.
pub fn items_between(
    alloc: Global,
    items: &RunText<Item>,
    from: usize,
    to: usize,
) -> Result<RunText<Item>, AllocError>
    requires in_order { from ≤ to }
    requires in_range { to ≤ length items.now }
    ensures { IfOk result (λ new. new ≡ between from to items.now) }
{
    let (first, second) = items.slice(from, to);
    let mut part = RunText::new(alloc);
    part.splice(0, 0, second)?;
    part.splice(0, 0, first)?;
    Ok(part)
}

/// Copies of the items, with copies of others behind them.
pub fn joined(items: &RunText<Item>, others: &RunText<Item>) -> Result<RunText<Item>, AllocError>
    ensures { IfOk result (λ new. new ≡ items.now ++ others.now) }
{
    let end = items.len();
    let (first, second) = others.slice(0, others.len());
    let mut all = items.clone()?;
    all.splice(end, end, second)?;
    all.splice(end, end, first)?;
    Ok(all)
}
