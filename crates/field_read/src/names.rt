//! Names that attributes state.
ghost use Rattle.std.specs.Prelude.{◌≡◌, [], chars, IfOk};
ghost use Rattle.std.specs.Option.{option_map, option_map_or};
ghost use Rattle.load_model.specs.declared.names.Key.TheVariants as key;
ghost use Rattle.load_model.specs.Fields as fields;
ghost use Rattle.load_model.specs.Values as values;
ghost use Rattle.load_model.specs.Values.{stated, stated_or};

use doc_model::Name;
use load_model::{Attribute, Key};
use read_values::{name, name_or_none, own_name, value_of};
use std::alloc::{AllocError, Global};

/// The name that an element states ('text:name'), if it states one.
pub(crate) fn name_stated(
    alloc: Global,
    attributes: &[Attribute],
) -> Result<Option<Name>, AllocError>
    ensures { IfOk result (λ one. one ≡ stated key.TextName values.name attributes.now) }
{
    match stated_name(attributes) {
        Some(text) => Ok(Some(copied(alloc, text)?)),
        None => Ok(None),
    }
}

fn stated_name(attributes: &[Attribute]) -> Option<&str>
    ensures { option_map (λ one. chars one.now) result ≡ stated key.TextName values.name attributes.now }
{
    name(value_of(Key::TextName, attributes)?)
}

/// The name of what is referred to ('text:ref-name'), empty where none is stated.
pub(crate) fn target_stated(alloc: Global, attributes: &[Attribute]) -> Result<Name, AllocError>
    ensures { IfOk result (λ one. one ≡ stated_or key.ReferenceName values.name_or_none [] attributes.now) }
{
    match stated_target(attributes) {
        Some(text) => copied(alloc, text),
        None => Ok(Name::none(alloc)),
    }
}

fn stated_target(attributes: &[Attribute]) -> Option<&str>
    ensures { option_map (λ one. chars one.now) result ≡ stated key.ReferenceName values.name_or_none attributes.now }
{
    name_or_none(value_of(Key::ReferenceName, attributes)?)
}

/// The name by which a sequence field is referred to ('text:ref-name'), empty where it has none of its own.
pub(crate) fn reference_stated(
    alloc: Global,
    is_first: bool,
    attributes: &[Attribute],
) -> Result<Name, AllocError>
    ensures { IfOk result (λ one. one ≡ stated_or key.ReferenceName (fields.own_name is_first) [] attributes.now) }
{
    match stated_reference(is_first, attributes) {
        Some(text) => copied(alloc, text),
        None => Ok(Name::none(alloc)),
    }
}

fn stated_reference(is_first: bool, attributes: &[Attribute]) -> Option<&str>
    ensures { option_map (λ one. chars one.now) result ≡ stated key.ReferenceName (fields.own_name is_first) attributes.now }
{
    own_name(is_first, value_of(Key::ReferenceName, attributes)?)
}

// A copy of a text as a name.
fn copied(alloc: Global, text: &str) -> Result<Name, AllocError>
    ensures { IfOk result (λ one. one ≡ chars text.now) }
{
    Ok(Name::from_list(String::from_str(alloc, text)?))
}
