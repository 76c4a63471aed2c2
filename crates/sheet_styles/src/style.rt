//! A style.
ghost use Rattle.std.specs.Prelude.{◌≡◌, [], chars, IfOk};
ghost use Rattle.std.specs.Option.{option_map_or};
ghost use Rattle.load_model.specs.declared.names.Key.TheVariants as key;
ghost use Rattle.load_model.specs.Styles.{reference};
ghost use Rattle.load_model.specs.Values as values;
ghost use Rattle.load_model.specs.Values.{stated, stated_or};
ghost use Rattle.sheet_names.specs.Known.{of_family};
ghost use Rattle.sheet_styles.specs.Rules.{master_among, style_by};

use crate::properties::style_properties;
use doc_model::{Family, Name, Style};
use element_parts::NameSet;
use load_model::{Attribute, Element, Key};
use read_values::value_of;
use sheet_names::{Names, StyleKey, is_empty};
use sheet_values::stated_level;
use std::alloc::{AllocError, Global};

/// The style of a family and name that an element is.
pub fn style_of(
    alloc: Global,
    names: &Names,
    is_auto: bool,
    style: StyleKey<'_>,
    element: &Element,
) -> Result<Style, AllocError>
    ensures { IfOk result (λ one. one ≡ style_by (of_family names.now.styles style.entry.family) names.now.masters is_auto style.entry.family (chars style.entry.name.now) element.now) }
{
    let attributes = element.attributes.get();
    let family = style.family;
    let name = name_from(alloc, style.name)?;
    let parent = stated_style(alloc, names, Key::Parent, family, attributes)?;
    let next = stated_style(alloc, names, Key::Next, family, attributes)?;
    let master = stated_master(alloc, &names.masters, attributes)?;
    Ok(Style {
        family,
        name,
        auto: is_auto,
        parent,
        next,
        master,
        outline: stated_outline(attributes),
        props: style_properties(family, element),
    })
}

// A text as a name.
fn name_from(alloc: Global, text: &str) -> Result<Name, AllocError>
    ensures { IfOk result (λ name. name ≡ chars text.now) }
{
    Ok(Name::from_list(String::from_str(alloc, text)?))
}

// The style of a family that is referred to, or the empty name.
fn stated_style(
    alloc: Global,
    names: &Names,
    key: Key,
    family: Family,
    attributes: &[Attribute],
) -> Result<Name, AllocError>
    ensures { IfOk result (λ name. name ≡ stated_or key (reference (of_family names.now.styles family)) [] attributes.now) }
{
    match value_of(key, attributes) {
        Some(text) => style_named(alloc, names, family, text),
        None => Ok(Name::none(alloc)),
    }
}

// The name of a style of a family, or the empty name where there is none.
fn style_named(alloc: Global, names: &Names, family: Family, text: &str) -> Result<Name, AllocError>
    ensures { IfOk result (λ name. name ≡ option_map_or (λ one. one) (reference (of_family names.now.styles family) (chars text.now)) []) }
{
    if names.styles.has(family, text) {
        return name_from(alloc, text);
    }
    Ok(Name::none(alloc))
}

// The master that a style states.
fn stated_master(
    alloc: Global,
    masters: &NameSet,
    attributes: &[Attribute],
) -> Result<Option<Name>, AllocError>
    ensures { IfOk result (λ master. master ≡ stated key.Master (master_among masters.now) attributes.now) }
{
    match value_of(Key::Master, attributes) {
        Some(text) => master_named(alloc, masters, text),
        None => Ok(None),
    }
}

// The name of a master, or the empty text as a stated none.
fn master_named(alloc: Global, masters: &NameSet, text: &str) -> Result<Option<Name>, AllocError>
    ensures { IfOk result (λ master. master ≡ master_among masters.now (chars text.now)) }
{
    if is_empty(text) {
        return Ok(Some(Name::none(alloc)));
    }
    if masters.has(text) {
        return Ok(Some(name_from(alloc, text)?));
    }
    Ok(None)
}

// The level of a heading style, or 0 for none.
fn stated_outline(attributes: &[Attribute]) -> u8
    ensures { result ≡ stated_or key.DefaultOutlineLevel values.level 0 attributes.now }
{
    match stated_level(Key::DefaultOutlineLevel, attributes) {
        Some(level) => level.get(),
        None => 0,
    }
}
