//! A master.
ghost use Rattle.std.specs.Prelude.{◌≡◌, ◌+◌, ◌++◌, [], chars, map, length, option_to_list, OnOk, IfOk};
ghost use Rattle.std.specs.Option.{option_map_or};
ghost use Rattle.load_model.specs.declared.names.Tag.TheVariants as tag;
ghost use Rattle.load_model.specs.Headers as header;
ghost use Rattle.load_model.specs.Left as left;
ghost use Rattle.load_model.specs.Left.{attributes_of, children};
ghost use Rattle.load_model.specs.Styles.{name_of, reference};
ghost use Rattle.load_model.specs.Values.{attributes_left, stated_or};
ghost use Rattle.element_parts.specs.Shown.{shown};
ghost use Rattle.head_read.specs.Rules.{master_by, rules_by};

use crate::rules::attributes_count;
use doc_model::{HeadPar, List, Master, Name};
use element_parts::{LeftOut, NameSet, first, name_of};
use load_model::{Attribute, Element, Key, Tag};
use read_values::value_of;
use sheet_names::Names;
use sheet_values::part_count;
use std::alloc::{AllocError, Global};

/// Adds the master that an element is, with its header and its footer, if it has a name.
pub(crate) fn add_master(
    alloc: Global,
    masters: &mut List<Master>,
    names: &Names,
    element: &Element,
    header: List<HeadPar>,
    footer: List<HeadPar>,
) -> Result<(), AllocError>
    ensures { OnOk result (masters.new ≡ masters.old ++ map (λ name. master_by names.now.layouts names.now.masters element.now header footer name) (option_to_list (name_of element.now))) }
{
    match name_of(element) {
        Some(name) => {
            let attributes = element.attributes.get();
            let name = name_from(alloc, name)?;
            let layout = stated_name(alloc, &names.layouts, Key::Layout, attributes)?;
            let next = stated_name(alloc, &names.masters, Key::Next, attributes)?;
            masters.push(Master {
                name,
                layout,
                next,
                header,
                footer,
            })
        }
        None => Ok(()),
    }
}

// The name of something that is referred to, or the empty name.
fn stated_name(
    alloc: Global,
    names: &NameSet,
    key: Key,
    attributes: &[Attribute],
) -> Result<Name, AllocError>
    ensures { IfOk result (λ name. name ≡ stated_or key (reference names.now) [] attributes.now) }
{
    match value_of(key, attributes) {
        Some(text) => name_among(alloc, names, text),
        None => Ok(Name::none(alloc)),
    }
}

// A text as a name, where it is one of these, or the empty name.
fn name_among(alloc: Global, names: &NameSet, text: &str) -> Result<Name, AllocError>
    ensures { IfOk result (λ name. name ≡ option_map_or (λ one. one) (reference names.now (chars text.now)) []) }
{
    if names.has(text) {
        return name_from(alloc, text);
    }
    Ok(Name::none(alloc))
}

// A text as a name.
fn name_from(alloc: Global, text: &str) -> Result<Name, AllocError>
    ensures { IfOk result (λ name. name ≡ chars text.now) }
{
    Ok(Name::from_list(String::from_str(alloc, text)?))
}

/// The attributes of a master that are left out.
pub(crate) fn own_attributes(names: &Names, element: &Element) -> LeftOut
    ensures { result ≡ shown (left.only_attributes (attributes_left (rules_by names.now.layouts names.now.masters) (attributes_of element.now))) }
{
    LeftOut::attributes(attributes_count(names, element.attributes.get()))
}

/// The elements of a master that are left out: all but one header and one footer.
pub(crate) fn other_elements(element: &Element) -> LeftOut
    ensures { result ≡ shown (left.all_but (length (option_to_list (header.head_of tag.Header element.now)) + length (option_to_list (header.head_of tag.Footer element.now))) (children element.now)) }
{
    let header = part_count(first(Tag::Header, element));
    let footer = part_count(first(Tag::Footer, element));
    LeftOut::elements(
        element
            .nodes
            .len()
            .saturating_sub(header)
            .saturating_sub(footer),
    )
}
