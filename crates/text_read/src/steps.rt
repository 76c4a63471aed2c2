//! What is added beside the walk.
ghost use Rattle.std.specs.Prelude.{◌≡◌, ◌==◌, ◌&&◌, [], false, true, not, length, List, ℕ, map, reverse, IfOk};
ghost use Rattle.doc_model.specs.declared.style.Family.TheVariants as family;
ghost use Rattle.element_parts.specs.Shown.{shown};
ghost use Rattle.item_spaces.specs.Spacing.{Holds};
ghost use Rattle.load_model.specs.declared.names.Key.TheVariants as key;
ghost use Rattle.load_model.specs.declared.element.Element.{out-Element};
ghost use Rattle.load_model.specs.Blocks as blocks;
ghost use Rattle.load_model.specs.Blocks.{ReadContent, as_block, declaration_blocks, gives_of, list_place, no_blocks, one_element, source_blocks};
ghost use Rattle.load_model.specs.Content.{items_of_raw};
ghost use Rattle.load_model.specs.Left.{attributes_of, children};
ghost use Rattle.load_model.specs.Met.{is_at};
ghost use Rattle.load_model.specs.Values as values;
ghost use Rattle.load_model.specs.Values.{stated_or};
ghost use Rattle.sheet_names.specs.Known.{of_family};
ghost use Rattle.block_parts.specs.Lists.{StandsIn, with_list};
ghost use Rattle.block_parts.specs.Values.{paragraph_by};
ghost use Rattle.read_blocks.specs.Adds.{AreBlocks, one_block};
ghost use Rattle.read_blocks.specs.Kept.{kept_raws};
ghost use Rattle.content_read.specs.Adds.{Adds};
ghost use Rattle.text_read.specs.Walk.{Enlists, Enters, begun_by, body_in, kept_content, note_at};

use block_parts::{Lists, note_attributes_left, note_left, note_with, paragraph};
use content_read::push_note;
use doc_model::{Block, Spans};
use element_parts::LeftOut;
use item_spaces::SpacedItems;
use load_model::{Element, Tag};
use read_blocks::{ReadBlocks, or_empty, paragraphs_in};
use sheet_names::Names;
use std::alloc::{AllocError, Global};

/// Adds the source of a section.
pub(crate) fn push_source(
    alloc: Global,
    element: &Element,
    into: &mut ReadBlocks,
) -> Result<Option<usize>, AllocError>
    ensures { IfOk result (λ first. (model : blocks.Known) (at : blocks.Lists) → Enlists at into.old into.new first (source_blocks (attributes_of element.now) (map (gives_of model) (children element.now)))) }
{
    into.push_source(alloc, element)?;
    Ok(None)
}

/// Adds declarations, of sequences or of variables, which stand in elements of a tag.
pub(crate) fn push_declarations(
    alloc: Global,
    sequences: bool,
    which: Tag,
    element: &Element,
    into: &mut ReadBlocks,
) -> Result<Option<usize>, AllocError>
    ensures { IfOk result (λ first. (model : blocks.Known) (at : blocks.Lists) → Enlists at into.old into.new first (declaration_blocks sequences which (attributes_of element.now) (map (gives_of model) (children element.now)))) }
{
    into.push_declarations(alloc, sequences, which, element)?;
    Ok(None)
}

/// Leaves an element out.
pub(crate) fn leave_out(into: &mut ReadBlocks) -> Option<usize>
    ensures { (at : blocks.Lists) → Enlists at into.old into.new result (no_blocks one_element) }
{
    into.leave_out(LeftOut::elements(1));
    None
}

/// Ends a list whose blocks begin at a place, of which the first paragraph begins counting where the list does.
pub(crate) fn end_list(
    lists: Lists<'_>,
    element: &Element,
    from: usize,
    into: &mut ReadBlocks,
) -> Option<usize>
    ensures { (at : blocks.Lists) (names : List (List ℕ)) (old : ReadBlocks) (more : blocks.ReadBlocks) → StandsIn lists.entry at → Enters (with_list names (attributes_of element.now) at) old into.old more → from ≡ length old.blocks.items → Enlists at old into.new result (begun_by (at.level == 0 && not (stated_or key.ContinueNumbering values.truth false (attributes_of element.now))) more) }
{
    if !lists.begins(element) {
        return None;
    }
    into.begin_counting(from);
    None
}

/// Adds a paragraph or heading of a level with its items, and answers its place where it is in a list.
pub(crate) fn add_paragraph(
    alloc: Global,
    names: &Names,
    lists: Lists<'_>,
    level: u8,
    element: &Element,
    items: SpacedItems,
    left: LeftOut,
    into: &mut ReadBlocks,
) -> Result<Option<usize>, AllocError>
    ensures { IfOk result (λ first. (at : blocks.Lists) (content : ReadContent) → StandsIn lists.entry at → Holds items (reverse (kept_raws at.in_note content.raws)) → left ≡ shown content.left → Enlists at into.old into.new first (one_block (as_block (paragraph_by (of_family names.now.styles family.Paragraph) (list_place at) level element.now (items_of_raw content.raws))) content.left)) }
{
    let items = items.into_items();
    let par = paragraph(alloc, names, lists, level, element, items)?;
    let at = into.blocks.len();
    into.leave_out(left);
    into.push(Block::Par(par))?;
    if lists.level == 0 {
        return Ok(None);
    }
    Ok(Some(at))
}

/// Adds a note outside of other notes, with what its body holds.
pub(crate) fn put_note(
    alloc: Global,
    items: &mut SpacedItems,
    spans: &Spans,
    is_first: bool,
    element: &Element,
    body: ReadBlocks,
) -> Result<LeftOut, AllocError>
    ensures { IfOk result (λ left. (model : blocks.Known) → is_first ≡ is_at model.kept.notes (out-Element element.now).place → AreBlocks true body (body_in element.now model) → Adds items.old items.new left (kept_content false (note_at element.now model (record { spans = spans.now; in_note = false })))) }
{
    let left = LeftOut::nothing()
        .both(note_attributes_left(is_first, element))
        .both(note_left(element))
        .both(body.left);
    let blocks = or_empty(alloc, element.place, body.blocks)?;
    let note = note_with(alloc, is_first, element, paragraphs_in(alloc, blocks)?)?;
    push_note(alloc, items, spans, note)?;
    Ok(left)
}
