//! Sections and their sources.
ghost use Rattle.std.specs.Prelude.{◌≡◌, ◌∷◌, [], false, true, not, IfOk};
ghost use Rattle.std.specs.Option.{option_map_or};
ghost use Rattle.doc_model.specs.declared.style.Family.TheVariants as family;
ghost use Rattle.load_model.specs.declared.names.Key.TheVariants as key;
ghost use Rattle.load_model.specs.Blocks as blocks;
ghost use Rattle.load_model.specs.Left as left;
ghost use Rattle.load_model.specs.Left.{attributes_of};
ghost use Rattle.load_model.specs.Styles.{reference};
ghost use Rattle.load_model.specs.Values as values;
ghost use Rattle.load_model.specs.Values.{rule, stated_or};
ghost use Rattle.sheet_names.specs.Known.{of_family};
ghost use Rattle.element_parts.specs.Shown.{shown};
ghost use Rattle.block_parts.specs.Values.{section_by, source_by, source_rules};

use crate::rules::{Reference, left_beside};
use crate::texts::{name_stated, style_stated, text_stated};
use doc_model::{Block, Family, Kind, Section, SectionSource};
use element_parts::{LeftOut, own_left};
use load_model::{Attribute, Element, Key};
use read_values::{Reading, display, truth, value_of};
use sheet_names::Names;
use sqlite_items::Items;
use std::alloc::{AllocError, Global};

/// The other rules of a section.
const SECTION_RULES: &[(Key, Reading)] = &[
    (Key::TextName, Reading::Name),
    (Key::Protected, Reading::Truth),
    (Key::Display, Reading::Display),
];

/// The rules of a source.
const SOURCE_RULES: &[(Key, Reading)] = &[
    (Key::Href, Reading::NameOrNone),
    (Key::SectionName, Reading::NameOrNone),
];

/// The section that an element is, with its source and its blocks.
pub fn section(
    alloc: Global,
    names: &Names,
    element: &Element,
    source: Option<SectionSource>,
    blocks: Items<Block>,
) -> Result<Section, AllocError>
    ensures { IfOk result (λ section. section ≡ section_by (of_family names.now.styles family.Section) (attributes_of element.now) source blocks) }
{
    let attributes = element.attributes.get();
    let name = name_stated(alloc, Key::TextName, attributes)?;
    let style = style_stated(alloc, names, Reference::Style(Family::Section), attributes)?;
    Ok(Section {
        kind: Kind::Plain,
        name,
        style,
        protected: is_protected(attributes),
        hidden: !is_shown(attributes),
        source,
        blocks,
    })
}

// Whether a section is protected.
fn is_protected(attributes: &[Attribute]) -> bool
    ensures { result ≡ stated_or key.Protected values.truth false attributes.now }
{
    match value_of(Key::Protected, attributes) {
        Some(text) => truth(text).unwrap_or(false),
        None => false,
    }
}

// Whether a section is shown.
fn is_shown(attributes: &[Attribute]) -> bool
    ensures { result ≡ stated_or key.Display values.display true attributes.now }
{
    match value_of(Key::Display, attributes) {
        Some(text) => display(text).unwrap_or(true),
        None => true,
    }
}

/// The attributes of a section that are left out.
#[tactic(auto, using(crate::proofs::RuleLemmas::section_swapped))]
pub fn section_left(names: &Names, element: &Element) -> LeftOut
    ensures { result ≡ shown (blocks.left_by (rule key.TextName values.name ∷ rule key.StyleName (reference (of_family names.now.styles family.Section)) ∷ rule key.Protected values.truth ∷ rule key.Display values.display ∷ []) (attributes_of element.now)) }
{
    left_beside(
        names,
        Reference::Style(Family::Section),
        SECTION_RULES,
        element,
    )
}

/// The source of a section.
pub fn source(alloc: Global, element: &Element) -> Result<SectionSource, AllocError>
    ensures { IfOk result (λ source. source ≡ source_by (attributes_of element.now)) }
{
    let attributes = element.attributes.get();
    let href = text_stated(alloc, Key::Href, attributes)?;
    let section = text_stated(alloc, Key::SectionName, attributes)?;
    Ok(SectionSource { href, section })
}

/// What is left out in the element of a source.
pub fn source_left(element: &Element) -> LeftOut
    ensures { result ≡ shown (left.both (blocks.left_by source_rules (attributes_of element.now)) (left.leaf_left element.now)) }
{
    own_left(SOURCE_RULES, element)
}
