//! List styles and the outline.
ghost use Rattle.std.specs.Prelude.{◌≡◌, ◌++◌, ◌∷◌, [], List, Some, map, option_to_list, OnOk, IfOk};
ghost use Rattle.std.specs.Option.{option_map};
ghost use Rattle.load_model.specs.declared.element.Element.{Element};
ghost use Rattle.load_model.specs.Styles.{name_of};
ghost use Rattle.sheet_values.specs.Read.{ListStylesAre, OutlineIs};

use crate::levels::{LevelsOf, read_levels};
use doc_model::{List, ListLevel, ListStyle, Name};
use element_parts::{LeftOut, attributes_out, name_of};
use load_model::{Element, Key};
use read_values::Reading;
use std::alloc::{AllocError, Global};

const NAME_RULES: &[(Key, Reading)] = &[(Key::Name, Reading::Name)];

/// List styles, with what is left out in their elements.
#[derive(Debug, Drop)]
pub struct ListStyles {
    /// The list styles.
    pub styles: List<ListStyle>,
    /// What is left out.
    pub left: LeftOut,
}

/// The outline, with what is left out in its element.
#[derive(Debug, Drop)]
pub struct Outline {
    /// The outline style.
    pub style: ListStyle,
    /// What is left out.
    pub left: LeftOut,
}

/// The list styles of the elements that are kept.
pub fn read_list_styles(alloc: Global, kept: &[&Element]) -> Result<ListStyles, AllocError>
    ensures { IfOk result (λ read. ListStylesAre read (map (λ element. element.now) kept.now)) }
{
    let mut read = ListStyles {
        styles: List::new(alloc),
        left: LeftOut::nothing(),
    };
    'kept: for element in kept {
        read = with_style(alloc, read, element)?;
    }
    Ok(read)
}

// One more list style, if the element has a name.
fn with_style(alloc: Global, read: ListStyles, element: &Element) -> Result<ListStyles, AllocError>
    ensures { IfOk result (λ more. (before : List Element) → ListStylesAre read before → ListStylesAre more (before ++ element.now ∷ [])) }
{
    let ListStyles { mut styles, left } = read;
    let read = read_levels(alloc, LevelsOf::ListStyle, element)?;
    let own = attributes_out(NAME_RULES, element).both(read.left);
    add_style(alloc, &mut styles, element, read.levels)?;
    Ok(ListStyles {
        styles,
        left: left.both(own),
    })
}

// Adds the list style that an element is, if it has a name.
fn add_style(
    alloc: Global,
    styles: &mut List<ListStyle>,
    element: &Element,
    levels: List<ListLevel>,
) -> Result<(), AllocError>
    ensures { OnOk result (styles.new ≡ styles.old ++ map (λ name. record { name = name; levels = levels }) (option_to_list (name_of element.now))) }
{
    match name_of(element) {
        Some(name) => {
            let name = Name::from_list(String::from_str(alloc, name)?);
            styles.push(ListStyle { name, levels })
        }
        None => Ok(()),
    }
}

/// The outline of the element that is kept, or that of a file without one.
pub fn read_outline(alloc: Global, kept: Option<&Element>) -> Result<Outline, AllocError>
    ensures { IfOk result (λ read. OutlineIs read (option_map (λ element. element.now) kept.entry)) }
{
    match kept {
        Some(element) => outline_in(alloc, element),
        None => Ok(Outline {
            style: ListStyle::no_outline(alloc),
            left: LeftOut::nothing(),
        }),
    }
}

// The outline of an element.
fn outline_in(alloc: Global, element: &Element) -> Result<Outline, AllocError>
    ensures { IfOk result (λ read. OutlineIs read (Some element.now)) }
{
    let read = read_levels(alloc, LevelsOf::Outline, element)?;
    Ok(Outline {
        style: ListStyle {
            name: Name::none(alloc),
            levels: read.levels,
        },
        left: LeftOut::nothing().both(attributes_out(&[], element).both(read.left)),
    })
}
