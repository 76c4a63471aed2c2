//! Paragraphs.
ghost use Rattle.std.specs.Prelude.{◌≡◌, ◌∷◌, [], chars, unwrap_or, IfOk};
ghost use Rattle.std.specs.Option.{option_map};
ghost use Rattle.doc_model.specs.declared.style.Family.TheVariants as family;
ghost use Rattle.load_model.specs.declared.names.Key.TheVariants as key;
ghost use Rattle.load_model.specs.Blocks as blocks;
ghost use Rattle.load_model.specs.Blocks.{list_place};
ghost use Rattle.load_model.specs.Left.{attributes_of};
ghost use Rattle.load_model.specs.Loaded.{at_most_ten};
ghost use Rattle.load_model.specs.Styles.{reference};
ghost use Rattle.load_model.specs.Values as values;
ghost use Rattle.load_model.specs.Values.{rule, stated_or};
ghost use Rattle.sheet_names.specs.Known.{of_family};
ghost use Rattle.element_parts.specs.Shown.{shown};
ghost use Rattle.block_parts.specs.Lists.{StandsIn};
ghost use Rattle.block_parts.specs.Values.{paragraph_by};

use crate::lists::Lists;
use crate::rules::{Reference, left_beside};
use crate::texts::style_stated;
use doc_model::{Family, Item, Name, Par, ParId};
use element_parts::LeftOut;
use load_model::{Attribute, Element, Key};
use read_values::{Reading, value_of};
use sheet_names::Names;
use sqlite_items::Items;
use std::alloc::{AllocError, Global};

/// The other rule of a heading.
const HEADING_RULES: &[(Key, Reading)] = &[(Key::OutlineLevel, Reading::HeadingLevel)];

/// The paragraph that an element within these lists is: of a heading level, or of 0, and with these items. Its number is
/// the place of the element.
pub fn paragraph(
    alloc: Global,
    names: &Names,
    lists: Lists<'_>,
    level: u8,
    element: &Element,
    items: Items<Item>,
) -> Result<Par, AllocError>
    ensures { IfOk result (λ par. (at : blocks.Lists) → StandsIn lists.entry at → par ≡ paragraph_by (of_family names.now.styles family.Paragraph) (option_map at_most_ten (list_place at)) level element.now items) }
{
    let style = style_stated(
        alloc,
        names,
        Reference::Style(Family::Paragraph),
        element.attributes.get(),
    )?;
    let list = lists.place(alloc)?;
    Ok(Par {
        id: ParId(element.place),
        style,
        level,
        list,
        items,
    })
}

/// A paragraph without a style, a list place and items.
pub fn empty_paragraph(alloc: Global, place: u32) -> Par
    ensures { result ≡ blocks.empty_paragraph place }
{
    Par {
        id: ParId(place),
        style: Name::none(alloc),
        level: 0,
        list: None,
        items: Items::new(alloc),
    }
}

/// The level of a heading: the one that it states, or else 1.
pub fn heading_level(attributes: &[Attribute]) -> u8
    ensures { result ≡ stated_or key.OutlineLevel values.heading_level 1 attributes.now }
{
    match value_of(Key::OutlineLevel, attributes) {
        Some(text) => level_or_one(text),
        None => 1,
    }
}

// The level of a text, or 1 where it is none.
fn level_or_one(text: &str) -> u8
    ensures { result ≡ unwrap_or (values.heading_level (chars text.now)) 1 }
{
    match read_values::heading_level(text) {
        Some(level) => level as u8,
        None => 1,
    }
}

/// The attributes of a paragraph that are left out.
pub fn paragraph_left(names: &Names, element: &Element) -> LeftOut
    ensures { result ≡ shown (blocks.left_by (rule key.StyleName (reference (of_family names.now.styles family.Paragraph)) ∷ []) (attributes_of element.now)) }
{
    left_beside(names, Reference::Style(Family::Paragraph), &[], element)
}

/// The attributes of a heading that are left out.
pub fn heading_left(names: &Names, element: &Element) -> LeftOut
    ensures { result ≡ shown (blocks.left_by (rule key.StyleName (reference (of_family names.now.styles family.Paragraph)) ∷ rule key.OutlineLevel values.heading_level ∷ []) (attributes_of element.now)) }
{
    left_beside(
        names,
        Reference::Style(Family::Paragraph),
        HEADING_RULES,
        element,
    )
}
