//! Items that are added.
ghost use Rattle.std.specs.Prelude.{◌≡◌, ◌∷◌, ◌++◌, [], map, replicate, chars, IfOk, OnOk};
ghost use Rattle.doc_model.specs.declared.paragraph.Item.{roll-Item};
ghost use Rattle.doc_model.specs.declared.paragraph.What.TheOpen.{What-F};
ghost use Rattle.load_model.specs.Content.{Read, item_in, raw_character};
ghost use Rattle.content_read.specs.Adds.{Gains};

use block_parts::name_from;
use doc_model::{Item, Note, Spans, What};
use item_spaces::SpacedItems;
use smallvec::SmallVec;
use sqlite_items::Boxed;
use std::alloc::{AllocError, Global};

/// Adds a run of characters.
pub fn push_run(items: &mut SpacedItems, spans: &Spans, run: &str) -> Result<(), AllocError>
    ensures { OnOk result (Gains items.old items.new (map (raw_character spans.now) (chars run.now))) }
{
    for c in run.chars() {
        items.push_char(spans, c)?;
    }
    Ok(())
}

/// Adds a note.
pub fn push_note(
    alloc: Global,
    items: &mut SpacedItems,
    spans: &Spans,
    note: Note,
) -> Result<(), AllocError>
    ensures { OnOk result (Gains items.old items.new (Read (item_in spans.now (What-F.Note note)) ∷ [])) }
{
    push_what(items, spans, What::Note(Boxed::new(alloc, note)?))
}

/// Adds an item.
pub(crate) fn push_what(
    items: &mut SpacedItems,
    spans: &Spans,
    what: What,
) -> Result<(), AllocError>
    ensures { OnOk result (Gains items.old items.new (Read (roll-Item (record { spans = spans.now; what = what })) ∷ [])) }
{
    let spans = spans.copy()?;
    items.push(Item { spans, what })
}

/// Adds so many spaces.
pub(crate) fn push_spaces(
    items: &mut SpacedItems,
    spans: &Spans,
    count: u32,
) -> Result<(), AllocError>
    ensures { OnOk result (Gains items.old items.new (map Read (replicate count (item_in spans.now (What-F.Char 0x20))))) }
{
    for _ in 0..count {
        push_what(items, spans, What::Char(' '))?;
    }
    Ok(())
}

/// The spans with one more within them.
pub fn spans_with(spans: &Spans, name: &str) -> Result<Spans, AllocError>
    ensures { IfOk result (λ all. all ≡ spans.now ++ chars name.now ∷ []) }
{
    let alloc = spans.allocator();
    let mut names = SmallVec::new(alloc);
    for one in spans.get() {
        names.push(one.copy()?)?;
    }
    names.push(name_from(alloc, name)?)?;
    Ok(Spans::from_list(names))
}
