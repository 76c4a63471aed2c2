//! Names that attributes state.
ghost use Rattle.std.specs.Prelude.{◌≡◌, [], chars, IfOk};
ghost use Rattle.std.specs.Option.{option_map, option_map_or};
ghost use Rattle.load_model.specs.declared.names.Key.TheVariants as key;
ghost use Rattle.load_model.specs.Fields as fields;
ghost use Rattle.load_model.specs.Styles.{reference};
ghost use Rattle.load_model.specs.Values as values;
ghost use Rattle.load_model.specs.Values.{stated, stated_or};
ghost use Rattle.block_parts.specs.Names.{names_in};

use crate::rules::Reference;
use doc_model::Name;
use load_model::{Attribute, Key};
use read_values::{name, name_or_none, own_name, value_of};
use sheet_names::Names;
use std::alloc::{AllocError, Global};

/// The name that an attribute states, or the empty one.
pub fn name_stated(alloc: Global, wanted: Key, attributes: &[Attribute]) -> Result<Name, AllocError>
    ensures { IfOk result (λ one. one ≡ stated_or wanted values.name [] attributes.now) }
{
    match stated_name(wanted, attributes) {
        Some(text) => name_from(alloc, text),
        None => Ok(Name::none(alloc)),
    }
}

/// The same as text, if it is stated.
pub fn stated_name(wanted: Key, attributes: &[Attribute]) -> Option<&str>
    ensures { option_map (λ one. chars one.now) result ≡ stated wanted values.name attributes.now }
{
    name(value_of(wanted, attributes)?)
}

/// The same where the name may be empty.
pub(crate) fn text_stated(
    alloc: Global,
    wanted: Key,
    attributes: &[Attribute],
) -> Result<Name, AllocError>
    ensures { IfOk result (λ one. one ≡ stated_or wanted values.name_or_none [] attributes.now) }
{
    match stated_text(wanted, attributes) {
        Some(text) => name_from(alloc, text),
        None => Ok(Name::none(alloc)),
    }
}

fn stated_text(wanted: Key, attributes: &[Attribute]) -> Option<&str>
    ensures { option_map (λ one. chars one.now) result ≡ stated wanted values.name_or_none attributes.now }
{
    name_or_none(value_of(wanted, attributes)?)
}

/// The id of a note, empty where it has none of its own.
pub(crate) fn id_stated(
    alloc: Global,
    is_first: bool,
    attributes: &[Attribute],
) -> Result<Name, AllocError>
    ensures { IfOk result (λ one. one ≡ stated_or key.Id (fields.own_name is_first) [] attributes.now) }
{
    match stated_id(is_first, attributes) {
        Some(text) => name_from(alloc, text),
        None => Ok(Name::none(alloc)),
    }
}

fn stated_id(is_first: bool, attributes: &[Attribute]) -> Option<&str>
    ensures { option_map (λ one. chars one.now) result ≡ stated key.Id (fields.own_name is_first) attributes.now }
{
    own_name(is_first, value_of(Key::Id, attributes)?)
}

/// The style that is referred to, or the empty name.
pub fn style_stated(
    alloc: Global,
    names: &Names,
    to: Reference,
    attributes: &[Attribute],
) -> Result<Name, AllocError>
    ensures { IfOk result (λ one. one ≡ stated_or key.StyleName (reference (names_in to names.now)) [] attributes.now) }
{
    match stated_style(names, to, attributes) {
        Some(text) => name_from(alloc, text),
        None => Ok(Name::none(alloc)),
    }
}

/// The style that is referred to, if it is there.
pub(crate) fn stated_style<'a>(
    names: &Names,
    to: Reference,
    attributes: &'a [Attribute],
) -> Option<&'a str>
    ensures { option_map (λ one. chars one.now) result ≡ stated key.StyleName (reference (names_in to names.now)) attributes.now }
{
    referred(names, to, value_of(Key::StyleName, attributes)?)
}

// A text as a reference, if it is one of the names.
fn referred<'a>(names: &Names, to: Reference, text: &'a str) -> Option<&'a str>
    ensures { option_map (λ one. chars one.now) result ≡ reference (names_in to names.now) (chars text.now) }
{
    if to.is_there(names, text) {
        return Some(text);
    }
    None
}

/// A copy of a text as a name.
pub fn name_from(alloc: Global, text: &str) -> Result<Name, AllocError>
    ensures { IfOk result (λ one. one ≡ chars text.now) }
{
    Ok(Name::from_list(String::from_str(alloc, text)?))
}
