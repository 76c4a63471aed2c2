//! Ranges of items that are changed or taken out.

ghost use Rattle.std.specs.Prelude.{◌≡◌, ◌≤◌, ◌++◌, length, map, filter, IfOk, OnOk};
ghost use Rattle.doc_model.specs.Parts.{is_mark};
ghost use Rattle.edit_rules.specs.Texts.{spans_of, with_spans, without_range};
ghost use Rattle.item_edits.specs.Spans.{with_own_spans};

use crate::copied::spliced;
use doc_model::{Item, Name, Spans, What, copy_what};
use run_text::RunText;
use smallvec::SmallVec;
use std::alloc::{AllocError, Global};

/// The items with this text style as the one span of each item of a range, or with none there by the empty name.
pub fn with_spans(
    alloc: Global,
    items: &RunText<Item>,
    from: usize,
    to: usize,
    style: &Name,
) -> Result<RunText<Item>, AllocError>
    requires in_order { from ≤ to }
    requires in_range { to ≤ length items.now }
    ensures { IfOk result (λ new. new ≡ with_spans from to (spans_of style.now) items.now) }
{
    let spans = spans_of(style)?;
    let (first, second) = items.slice(from, to);
    let mut changed = Vec::with_capacity(alloc, to - from)?;
    push_spanned(alloc, &mut changed, first, &spans)?;
    push_spanned(alloc, &mut changed, second, &spans)?;
    spliced(items, from, to, changed.as_slice())
}

/// The items without those of a range, but for marks.
pub fn without_range(
    alloc: Global,
    items: &RunText<Item>,
    from: usize,
    to: usize,
) -> Result<RunText<Item>, AllocError>
    requires in_order { from ≤ to }
    requires in_range { to ≤ length items.now }
    ensures { IfOk result (λ new. new ≡ without_range from to items.now) }
{
    let (first, second) = items.slice(from, to);
    let mut marks = Vec::new(alloc);
    push_marks(&mut marks, first)?;
    push_marks(&mut marks, second)?;
    spliced(items, from, to, marks.as_slice())
}

// The spans that a style gives.
fn spans_of(style: &Name) -> Result<Spans, AllocError>
    ensures { IfOk result (λ spans. spans ≡ spans_of style.now) }
{
    let alloc = style.allocator();
    let mut names = SmallVec::new(alloc);
    if style.is_same(&Name::none(alloc)) {
        return Ok(Spans::from_list(names));
    }
    names.push(style.copy()?)?;
    Ok(Spans::from_list(names))
}

// Appends copies of items with these spans in place of their own.
fn push_spanned(
    alloc: Global,
    changed: &mut Vec<Item>,
    items: &[Item],
    spans: &Spans,
) -> Result<(), AllocError>
    ensures { OnOk result (changed.new.items ≡ changed.old.items ++ map (with_own_spans spans.now) items.now) }
{
    for item in items {
        changed.push(spanned(alloc, item, spans)?)?;
    }
    Ok(())
}

// A copy of an item with these spans in place of its own.
fn spanned(alloc: Global, item: &Item, spans: &Spans) -> Result<Item, AllocError>
    ensures { IfOk result (λ new. new ≡ with_own_spans spans.now item.now) }
{
    let spans = spans.copy()?;
    let what = copy_what(alloc, &item.what)?;
    Ok(Item { spans, what })
}

// Appends copies of the marks among items.
fn push_marks(marks: &mut Vec<Item>, items: &[Item]) -> Result<(), AllocError>
    ensures { OnOk result (marks.new.items ≡ marks.old.items ++ filter is_mark items.now) }
{
    for item in items {
        if is_mark(item) {
            marks.push(item.clone()?)?;
        }
    }
    Ok(())
}

// Whether an item is a mark.
fn is_mark(item: &Item) -> bool
    ensures { result ≡ is_mark item.now }
{
    match &item.what {
        What::Mark(_) => true,
        _ => false,
    }
}
