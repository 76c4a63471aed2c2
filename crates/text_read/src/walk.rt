//! The text, element by element.
ghost use Rattle.std.specs.Prelude.{[], false, true, IfOk, OnOk};
ghost use Rattle.load_model.specs.declared.names.Key.TheVariants as key;
ghost use Rattle.load_model.specs.Blocks as blocks;
ghost use Rattle.load_model.specs.Blocks.{blocks_with, gives_of, heading_rules, left_by, one_element, paragraph_rules, without_sources};
ghost use Rattle.load_model.specs.Left.{attributes_of};
ghost use Rattle.load_model.specs.Values as values;
ghost use Rattle.load_model.specs.Values.{stated_or};
ghost use Rattle.read_blocks.specs.Adds.{AreBlocks};
ghost use Rattle.content_read.specs.Held.{content_at, content_in};
ghost use Rattle.content_read.specs.Known.{IsKnown};
ghost use Rattle.text_read.specs.Walk.{EnlistsHere, EntersHere, ReadsHere, blocks_at, blocks_in, body_in, entries_in, entry_at, held_in, item_in, list_at, note_at, paragraph_at, section_at};

use crate::steps::{add_paragraph, end_list, leave_out, push_declarations, push_source, put_note};
use block_parts::{Lists, heading_left, heading_level, list_left, paragraph_left};
use content_read::{Known, Role, push_alone, push_run, role_of, spans_with};
use doc_model::Spans;
use element_parts::{LeftOut, attributes_out, is};
use item_spaces::SpacedItems;
use load_model::{Element, Tag};
use read_blocks::ReadBlocks;
use std::alloc::{AllocError, Global};

/// What is read in the text of a body: blocks, declarations and what is left out. No source is read.
pub fn read_text(alloc: Global, known: Known<'_>, text: &Element) -> Result<ReadBlocks, AllocError>
    ensures { IfOk result (λ read. (model : blocks.Known) → IsKnown known.entry model → AreBlocks false read (without_sources ((gives_of model text.now).inside (record { level = 0; style = []; in_note = false })))) }
{
    let mut read = ReadBlocks::new(alloc);
    let lists = Lists::outside(false);
    push_inside(alloc, known, lists, text, &mut read)?;
    read.drop_sources();
    Ok(read)
}

// Adds what an element gives where blocks are read, and answers the place of the first paragraph directly in these lists.
#[cycle(push_block)]
fn push_block<'a>(
    alloc: Global,
    known: Known<'_>,
    lists: Lists<'a>,
    element: &'a Element,
    into: &mut ReadBlocks,
) -> Result<Option<usize>, AllocError>
    ensures { IfOk result (λ first. EnlistsHere known.entry lists.entry into.old into.new first (blocks_at element.now)) }
{
    match element.tag {
        Tag::Paragraph => push_paragraph(alloc, known, lists, element, into),
        Tag::Heading => push_heading(alloc, known, lists, element, into),
        Tag::List => push_list(alloc, known, lists, element, into),
        Tag::Section => push_section(alloc, known, lists, element, into),
        Tag::Index => push_passed(alloc, known, lists, element, into),
        Tag::SectionSource => push_source(alloc, element, into),
        Tag::VariableDeclarations => {
            push_declarations(alloc, false, Tag::VariableDeclaration, element, into)
        }
        Tag::SequenceDeclarations => {
            push_declarations(alloc, true, Tag::SequenceDeclaration, element, into)
        }
        _ => Ok(leave_out(into)),
    }
}

// Adds what the elements give that an element holds.
#[cycle(push_block)]
#[tactic(auto, using(met_read::proofs::SizeLemmas::smaller))]
fn push_inside<'a>(
    alloc: Global,
    known: Known<'_>,
    lists: Lists<'a>,
    element: &'a Element,
    into: &mut ReadBlocks,
) -> Result<Option<usize>, AllocError>
    ensures { IfOk result (λ first. EnlistsHere known.entry lists.entry into.old into.new first (blocks_in element.now)) }
{
    let mut first = None;
    for turn in element.nodes.turns() {
        let found = push_block(alloc, known, lists, &turn.elem, into)?;
        first = first.or(found);
    }
    Ok(first)
}

// Adds a section. One that isn't kept is passed.
#[cycle(push_block)]
fn push_section<'a>(
    alloc: Global,
    known: Known<'_>,
    lists: Lists<'a>,
    element: &'a Element,
    into: &mut ReadBlocks,
) -> Result<Option<usize>, AllocError>
    ensures { IfOk result (λ first. EnlistsHere known.entry lists.entry into.old into.new first (section_at element.now)) }
{
    if !known.kept.keeps_section(element.place) {
        return push_passed(alloc, known, lists, element, into);
    }
    let mut held = ReadBlocks::new(alloc);
    push_inside(alloc, known, lists, element, &mut held)?;
    into.push_section(alloc, known.names, element, held)?;
    Ok(None)
}

// Adds what an element holds that counts as one that is left out.
#[cycle(push_block)]
fn push_passed<'a>(
    alloc: Global,
    known: Known<'_>,
    lists: Lists<'a>,
    element: &'a Element,
    into: &mut ReadBlocks,
) -> Result<Option<usize>, AllocError>
    ensures { IfOk result (λ first. EnlistsHere known.entry lists.entry into.old into.new first (λ model at. blocks_with one_element (blocks_in element.now model at))) }
{
    into.leave_out(LeftOut::elements(1));
    push_inside(alloc, known, lists, element, into)
}

// Adds a list. The first paragraph of an outermost one begins counting, where the list doesn't say that it goes on.
#[cycle(push_block)]
fn push_list<'a>(
    alloc: Global,
    known: Known<'_>,
    lists: Lists<'a>,
    element: &'a Element,
    into: &mut ReadBlocks,
) -> Result<Option<usize>, AllocError>
    ensures { IfOk result (λ first. EnlistsHere known.entry lists.entry into.old into.new first (list_at element.now)) }
{
    into.leave_out(list_left(known.names, element));
    let from = into.blocks.len();
    push_entries(
        alloc,
        known,
        lists.within(known.names, element),
        element,
        into,
    )?;
    Ok(end_list(lists, element, from, into))
}

// Adds the entries of a list.
#[cycle(push_block)]
#[tactic(auto, using(met_read::proofs::SizeLemmas::smaller))]
fn push_entries<'a>(
    alloc: Global,
    known: Known<'_>,
    lists: Lists<'a>,
    element: &'a Element,
    into: &mut ReadBlocks,
) -> Result<(), AllocError>
    ensures { OnOk result (EntersHere known.entry lists.entry into.old into.new (entries_in element.now)) }
{
    for turn in element.nodes.turns() {
        push_entry(alloc, known, lists, &turn.elem, into)?;
    }
    Ok(())
}

// Adds what an element gives where the entries of a list are read.
#[cycle(push_block)]
fn push_entry<'a>(
    alloc: Global,
    known: Known<'_>,
    lists: Lists<'a>,
    element: &'a Element,
    into: &mut ReadBlocks,
) -> Result<(), AllocError>
    ensures { OnOk result (EntersHere known.entry lists.entry into.old into.new (entry_at element.now)) }
{
    match element.tag {
        Tag::ListItem => push_item(alloc, known, lists, element, into),
        Tag::ListHeader => push_header(alloc, known, lists, element, into),
        _ => {
            into.leave_out(LeftOut::elements(1));
            Ok(())
        }
    }
}

// Adds what an item of a list holds. The first paragraph directly in it begins it.
#[cycle(push_block)]
fn push_item<'a>(
    alloc: Global,
    known: Known<'_>,
    lists: Lists<'a>,
    element: &'a Element,
    into: &mut ReadBlocks,
) -> Result<(), AllocError>
    ensures { OnOk result (EntersHere known.entry lists.entry into.old into.new (item_in element.now)) }
{
    let first = push_held(alloc, known, lists, element, into)?;
    into.begin_item(first);
    Ok(())
}

// Adds what a header of a list holds.
#[cycle(push_block)]
fn push_header<'a>(
    alloc: Global,
    known: Known<'_>,
    lists: Lists<'a>,
    element: &'a Element,
    into: &mut ReadBlocks,
) -> Result<(), AllocError>
    ensures { OnOk result (EntersHere known.entry lists.entry into.old into.new (held_in element.now)) }
{
    push_held(alloc, known, lists, element, into)?;
    Ok(())
}

// Adds what an entry of a list holds. No source and no declaration is read in it.
#[cycle(push_block)]
fn push_held<'a>(
    alloc: Global,
    known: Known<'_>,
    lists: Lists<'a>,
    element: &'a Element,
    into: &mut ReadBlocks,
) -> Result<Option<usize>, AllocError>
    ensures { IfOk result (λ first. EnlistsHere known.entry lists.entry into.old into.new first (held_in element.now)) }
{
    into.leave_out(attributes_out(&[], element));
    let sources = into.sources.len();
    let declarations = into.declarations.len();
    let first = push_inside(alloc, known, lists, element, into)?;
    into.drop_behind(sources, declarations);
    Ok(first)
}

// Adds a paragraph.
#[cycle(push_block)]
fn push_paragraph<'a>(
    alloc: Global,
    known: Known<'_>,
    lists: Lists<'a>,
    element: &'a Element,
    into: &mut ReadBlocks,
) -> Result<Option<usize>, AllocError>
    ensures { IfOk result (λ first. EnlistsHere known.entry lists.entry into.old into.new first (λ model at. blocks_with (left_by (paragraph_rules model) (attributes_of element.now)) (paragraph_at 0 element.now model at))) }
{
    into.leave_out(paragraph_left(known.names, element));
    push_par(alloc, known, lists, 0, element, into)
}

// Adds a heading.
#[cycle(push_block)]
fn push_heading<'a>(
    alloc: Global,
    known: Known<'_>,
    lists: Lists<'a>,
    element: &'a Element,
    into: &mut ReadBlocks,
) -> Result<Option<usize>, AllocError>
    ensures { IfOk result (λ first. EnlistsHere known.entry lists.entry into.old into.new first (λ model at. blocks_with (left_by (heading_rules model) (attributes_of element.now)) (paragraph_at (stated_or key.OutlineLevel values.heading_level 1 (attributes_of element.now)) element.now model at))) }
{
    into.leave_out(heading_left(known.names, element));
    let level = heading_level(element.attributes.get());
    push_par(alloc, known, lists, level, element, into)
}

// Adds a paragraph or heading of a level with its content.
#[cycle(push_block)]
fn push_par<'a>(
    alloc: Global,
    known: Known<'_>,
    lists: Lists<'a>,
    level: u8,
    element: &'a Element,
    into: &mut ReadBlocks,
) -> Result<Option<usize>, AllocError>
    ensures { IfOk result (λ first. EnlistsHere known.entry lists.entry into.old into.new first (paragraph_at level element.now)) }
{
    let mut items = SpacedItems::new(alloc);
    let spans = Spans::none(alloc);
    let left = push_nodes(alloc, known, &mut items, &spans, lists.in_note, element)?;
    add_paragraph(alloc, known.names, lists, level, element, items, left, into)
}

// Adds the content that the nodes of an element give, and answers what is left out in it.
#[cycle(push_block)]
#[tactic(auto, using(met_read::proofs::SizeLemmas::smaller))]
fn push_nodes(
    alloc: Global,
    known: Known<'_>,
    items: &mut SpacedItems,
    spans: &Spans,
    in_note: bool,
    element: &Element,
) -> Result<LeftOut, AllocError>
    ensures { IfOk result (λ left. ReadsHere known.entry spans.now in_note items.old items.new left (λ model. content_in model element.now)) }
{
    push_run(items, spans, element.nodes.first())?;
    let mut left = LeftOut::nothing();
    for turn in element.nodes.turns() {
        let more = push_content(alloc, known, items, spans, in_note, &turn.elem)?;
        push_run(items, spans, turn.after.get())?;
        left = left.both(more);
    }
    Ok(left)
}

// Adds what an element gives where the content of a paragraph is read.
#[cycle(push_block)]
fn push_content(
    alloc: Global,
    known: Known<'_>,
    items: &mut SpacedItems,
    spans: &Spans,
    in_note: bool,
    element: &Element,
) -> Result<LeftOut, AllocError>
    ensures { IfOk result (λ left. ReadsHere known.entry spans.now in_note items.old items.new left (λ model. content_at model element.now)) }
{
    match role_of(known, spans, element) {
        Role::Alone => push_alone(alloc, known, items, spans, element),
        Role::Note => push_note_element(alloc, known, items, spans, in_note, element),
        Role::Passed(left) => {
            let more = push_nodes(alloc, known, items, spans, in_note, element)?;
            Ok(left.both(more))
        }
        Role::Span(name, left) => {
            let inner = spans_with(spans, name)?;
            let more = push_nodes(alloc, known, items, &inner, in_note, element)?;
            Ok(left.both(more))
        }
    }
}

// Adds a note with its paragraphs. One in a note is dropped.
#[cycle(push_block)]
fn push_note_element(
    alloc: Global,
    known: Known<'_>,
    items: &mut SpacedItems,
    spans: &Spans,
    in_note: bool,
    element: &Element,
) -> Result<LeftOut, AllocError>
    ensures { IfOk result (λ left. ReadsHere known.entry spans.now in_note items.old items.new left (note_at element.now)) }
{
    if in_note {
        return Ok(LeftOut::elements(1));
    }
    let body = read_body(alloc, known, element)?;
    let is_first = known.kept.keeps_note(element.place);
    put_note(alloc, items, spans, is_first, element, body)
}

// What the first body of a note holds, of which no source and no declaration is read.
#[cycle(push_block)]
#[tactic(auto, using(met_read::proofs::SizeLemmas::smaller))]
fn read_body(alloc: Global, known: Known<'_>, element: &Element) -> Result<ReadBlocks, AllocError>
    ensures { IfOk result (λ body. (model : blocks.Known) → IsKnown known.entry model → AreBlocks true body (body_in element.now model)) }
{
    let mut body = ReadBlocks::new(alloc);
    for turn in element.nodes.turns() {
        if is(Tag::NoteBody, &turn.elem) {
            push_inside(alloc, known, Lists::outside(true), &turn.elem, &mut body)?;
            body.drop_behind(0, 0);
            return Ok(body);
        }
    }
    Ok(body)
}
