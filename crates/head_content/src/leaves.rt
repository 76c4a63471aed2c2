//! Elements without content of their own: spaces, tabs, breaks and fields.
ghost use Rattle.std.specs.Prelude.{◌≡◌, ◌∷◌, [], true, map, option_to_list, replicate, OnOk};
ghost use Rattle.doc_model.specs.declared.paragraph.What.{roll-What};
ghost use Rattle.doc_model.specs.declared.paragraph.What.TheOpen.{What-F};
ghost use Rattle.load_model.specs.declared.element.Element.{out-Element};
ghost use Rattle.load_model.specs.declared.names.Key.TheVariants as key;
ghost use Rattle.load_model.specs.Fields as fields;
ghost use Rattle.load_model.specs.Left.{tag_of};
ghost use Rattle.load_model.specs.Values as values;
ghost use Rattle.load_model.specs.Values.{rule, stated_or};
ghost use Rattle.read_values.specs.Readings.{rule_of};
ghost use Rattle.head_content.specs.Reading.{Adds, item_of, letter_item, only_items, spaced_letters};
ghost use Rattle.head_content.specs.Walk.{field_in, leaf_of, letters_in, spaces_of, stored_in};

use crate::head_items::HeadItems;
use doc_model::{Field, Txt, What};
use element_parts::own_left;
use field_read::field_of;
use load_model::{Attribute, Element, Key};
use read_values::{Reading, field_rules, number, value_of};
use sqlite_items::Boxed;
use std::alloc::{AllocError, Global};

/// The most spaces that one element stands for.
const MOST_SPACES: u32 = u32::MAX;

const COUNT_RULES: &[(Key, Reading)] = &[(Key::Count, Reading::Number(1, MOST_SPACES))];

/// Adds a tab.
pub(crate) fn push_tab(
    alloc: Global,
    element: &Element,
    read: &mut HeadItems,
) -> Result<(), AllocError>
    ensures { OnOk result (Adds read.old read.new (leaf_of [] (item_of (roll-What What-F.Tab) ∷ []) element.now)) }
{
    push_leaf(alloc, What::Tab, element, read)
}

/// Adds a line break.
pub(crate) fn push_break(
    alloc: Global,
    element: &Element,
    read: &mut HeadItems,
) -> Result<(), AllocError>
    ensures { OnOk result (Adds read.old read.new (leaf_of [] (item_of (roll-What What-F.Break) ∷ []) element.now)) }
{
    push_leaf(alloc, What::Break, element, read)
}

// Adds an item that an element without attributes is.
fn push_leaf(
    alloc: Global,
    what: What,
    element: &Element,
    read: &mut HeadItems,
) -> Result<(), AllocError>
    ensures { OnOk result (Adds read.old read.new (leaf_of [] (item_of what ∷ []) element.now)) }
{
    read.leave_out(own_left(&[], element));
    read.push(alloc, what)
}

/// Adds the spaces that an element stands for.
pub(crate) fn push_spaces(
    alloc: Global,
    element: &Element,
    read: &mut HeadItems,
) -> Result<(), AllocError>
    ensures { OnOk result (Adds read.old read.new (leaf_of (rule key.Count (values.number 1 4294967295) ∷ []) (spaces_of element.now) element.now)) }
{
    read.leave_out(own_left(COUNT_RULES, element));
    push_many(alloc, stated_count(element.attributes.get()), read)
}

// How many spaces an element stands for: one where it doesn't say.
fn stated_count(attributes: &[Attribute]) -> u32
    ensures { result ≡ stated_or key.Count (values.number 1 4294967295) 1 attributes.now }
{
    match value_of(Key::Count, attributes) {
        Some(text) => number(1, MOST_SPACES, text).unwrap_or(1),
        None => 1,
    }
}

// Adds so many spaces.
fn push_many(alloc: Global, count: u32, read: &mut HeadItems) -> Result<(), AllocError>
    ensures { OnOk result (Adds read.old read.new (only_items (replicate count (letter_item 0x20)))) }
{
    'spaces: for _at in 0..count {
        read.push_letter(alloc, ' ')?;
    }
    Ok(())
}

/// Adds the field that an element is.
pub(crate) fn push_field(
    alloc: Global,
    element: &Element,
    read: &mut HeadItems,
) -> Result<(), AllocError>
    ensures { OnOk result (Adds read.old read.new (leaf_of (fields.field_rules (tag_of element.now) true) (field_in element.now) element.now)) }
{
    read.leave_out(own_left(field_rules(element.tag, true), element));
    let attributes = element.attributes.get();
    let field = field_of(alloc, element.tag, true, Txt::none(alloc), attributes)?;
    push_some(alloc, field, read)
}

// Adds a field, if it is there.
fn push_some(alloc: Global, field: Option<Field>, read: &mut HeadItems) -> Result<(), AllocError>
    ensures { OnOk result (Adds read.old read.new (only_items (map (λ one. item_of (roll-What (What-F.Field one))) (option_to_list field)))) }
{
    match field {
        Some(field) => read.push(alloc, What::Field(Boxed::new(alloc, field)?)),
        None => Ok(()),
    }
}

/// Adds the text that stands in a field, of which no white space goes.
pub(crate) fn push_stored(
    alloc: Global,
    element: &Element,
    read: &mut HeadItems,
) -> Result<(), AllocError>
    ensures { OnOk result (Adds read.old read.new (leaf_of (fields.field_rules (tag_of element.now) true) (stored_in element.now) element.now)) }
{
    read.leave_out(own_left(field_rules(element.tag, true), element));
    push_own_text(alloc, element, read)
}

// Adds the characters that stand directly in an element.
fn push_own_text(alloc: Global, element: &Element, read: &mut HeadItems) -> Result<(), AllocError>
    ensures { OnOk result (Adds read.old read.new (spaced_letters (letters_in (out-Element element.now).nodes))) }
{
    read.push_spaced(alloc, element.nodes.first())?;
    'turns: for turn in element.nodes.turns() {
        read.push_spaced(alloc, turn.after.get())?;
    }
    Ok(())
}
