//! Elements that are read by themselves: spaces, tabs, breaks, marks and fields, and those that are dropped.
ghost use Rattle.std.specs.Prelude.{◌≡◌, ◌∷◌, [], map, true, IfOk};
ghost use Rattle.markup_nodes.specs.Nodes.{elems};
ghost use Rattle.doc_model.specs.declared.paragraph.Item.{roll-Item};
ghost use Rattle.load_model.specs.declared.names.Key.TheVariants as key;
ghost use Rattle.load_model.specs.declared.element.Element.{out-Element};
ghost use Rattle.load_model.specs.Blocks as blocks;
ghost use Rattle.load_model.specs.Blocks.{field_content, leaf_items, mark_content, spaces_content};
ghost use Rattle.load_model.specs.Fields as fields;
ghost use Rattle.load_model.specs.Left.{attributes_of, tag_of};
ghost use Rattle.load_model.specs.Values as values;
ghost use Rattle.load_model.specs.Values.{stated_or};
ghost use Rattle.read_values.specs.Readings.{rule_of};
ghost use Rattle.content_read.specs.Adds.{AddsIn};
ghost use Rattle.content_read.specs.Held.{content_at, held};
ghost use Rattle.content_read.specs.Known.{IsKnown};
ghost use Rattle.content_read.specs.Marks.{mark_of};
ghost use Rattle.content_read.specs.Roles.{is_alone};

use crate::known::Known;
use crate::pushes::{push_spaces, push_what};
use crate::roles::is_field;
use block_parts::name_stated;
use doc_model::{Mark, Name, Spans, What};
use element_parts::{LeftOut, own_left};
use element_texts::own_text;
use field_read::field_of;
use item_spaces::SpacedItems;
use load_model::{Attribute, Element, Key, Tag};
use met_read::MarkKind;
use read_values::{Reading, field_rules, number, value_of};
use sqlite_items::Boxed;
use std::alloc::{AllocError, Global};

/// Adds what an element is that is read by itself, and answers what is left out in it.
pub fn push_alone(
    alloc: Global,
    known: Known<'_>,
    items: &mut SpacedItems,
    spans: &Spans,
    element: &Element,
) -> Result<LeftOut, AllocError>
    requires { is_alone (tag_of element.now) ≡ true }
    ensures { IfOk result (λ left. (model : blocks.Known) → IsKnown known.entry model → AddsIn spans.now items.old items.new left (content_at model element.now)) }
{
    match element.tag {
        Tag::Spaces => push_counted(items, spans, element),
        Tag::Tab => push_leaf(items, spans, &[], What::Tab, element),
        Tag::LineBreak => push_leaf(items, spans, &[], What::Break, element),
        Tag::Bookmark => push_mark(alloc, known, MarkKind::Whole, items, spans, element),
        Tag::BookmarkStart => push_mark(alloc, known, MarkKind::Start, items, spans, element),
        Tag::BookmarkEnd => push_mark(alloc, known, MarkKind::End, items, spans, element),
        _ => {
            if is_field(element.tag) {
                push_field(alloc, known, items, spans, element)
            } else {
                Ok(LeftOut::elements(1))
            }
        }
    }
}

// Adds an item that an element is in which no other has a rule.
fn push_leaf(
    items: &mut SpacedItems,
    spans: &Spans,
    rules: &[(Key, Reading)],
    what: What,
    element: &Element,
) -> Result<LeftOut, AllocError>
    ensures { IfOk result (λ left. (model : blocks.Known) → AddsIn spans.now items.old items.new left (λ around. leaf_items (map rule_of rules.now) (attributes_of element.now) (elems (held model element.now)) (roll-Item (record { spans = around.spans; what = what }) ∷ []))) }
{
    push_what(items, spans, what)?;
    Ok(own_left(rules, element))
}

// Adds the spaces of an element that counts them.
fn push_counted(
    items: &mut SpacedItems,
    spans: &Spans,
    element: &Element,
) -> Result<LeftOut, AllocError>
    ensures { IfOk result (λ left. (model : blocks.Known) → AddsIn spans.now items.old items.new left (λ around. spaces_content around (attributes_of element.now) (elems (held model element.now)))) }
{
    push_spaces(items, spans, count_stated(element.attributes.get()))?;
    Ok(own_left(&[(Key::Count, Reading::Number(1, u32::MAX))], element))
}

// How many spaces an element is.
fn count_stated(attributes: &[Attribute]) -> u32
    ensures { result ≡ stated_or key.Count (values.number 1 4294967295) 1 attributes.now }
{
    match value_of(Key::Count, attributes) {
        Some(text) => number(1, u32::MAX, text).unwrap_or(1),
        None => 1,
    }
}

// Adds a mark, if it is kept.
fn push_mark(
    alloc: Global,
    known: Known<'_>,
    kind: MarkKind,
    items: &mut SpacedItems,
    spans: &Spans,
    element: &Element,
) -> Result<LeftOut, AllocError>
    ensures { IfOk result (λ left. (model : blocks.Known) → IsKnown known.entry model → AddsIn spans.now items.old items.new left (λ around. mark_content model around (out-Element element.now).place (mark_of kind) (attributes_of element.now) (elems (held model element.now)))) }
{
    if !known.kept.keeps_mark(element.place) {
        return Ok(LeftOut::elements(1));
    }
    let name = name_stated(alloc, Key::TextName, element.attributes.get())?;
    let mark = Boxed::new(alloc, mark_with(kind, name))?;
    push_leaf(
        items,
        spans,
        &[(Key::TextName, Reading::Name)],
        What::Mark(mark),
        element,
    )
}

// A mark of the bookmark of a name.
fn mark_with(kind: MarkKind, name: Name) -> Mark
    ensures { result ≡ mark_of kind name }
{
    match kind {
        MarkKind::Whole => Mark::Point(name),
        MarkKind::Start => Mark::Start(name),
        MarkKind::End => Mark::End(name),
    }
}

// Adds a field, if it has the name that it needs.
fn push_field(
    alloc: Global,
    known: Known<'_>,
    items: &mut SpacedItems,
    spans: &Spans,
    element: &Element,
) -> Result<LeftOut, AllocError>
    ensures { IfOk result (λ left. (model : blocks.Known) → IsKnown known.entry model → AddsIn spans.now items.old items.new left (λ around. field_content model around (tag_of element.now) (out-Element element.now).place (attributes_of element.now) (held model element.now))) }
{
    let is_first = known.kept.keeps_reference(element.place);
    let text = own_text(alloc, element)?;
    match field_of(alloc, element.tag, is_first, text, element.attributes.get())? {
        Some(field) => push_leaf(
            items,
            spans,
            field_rules(element.tag, is_first),
            What::Field(Boxed::new(alloc, field)?),
            element,
        ),
        None => Ok(LeftOut::elements(1)),
    }
}
