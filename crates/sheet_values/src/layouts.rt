//! Page layouts.
ghost use Rattle.std.specs.Prelude.{◌≡◌, ◌++◌, ◌∷◌, [], List, chars, map, OnOk, IfOk};
ghost use Rattle.load_model.specs.declared.element.Element.{Element};
ghost use Rattle.load_model.specs.Styles as styles;
ghost use Rattle.element_parts.specs.Shown.{shown};
ghost use Rattle.sheet_values.specs.Read.{layouts_in, LayoutsAre};

use crate::parts::{children_left, part_attributes, part_count};
use crate::stated::{margin, stated_length};
use doc_model::{List, Name, PageLayout};
use element_parts::{LeftOut, attributes_out, first, name_of, part_left};
use load_model::{Attribute, Element, Key, Tag};
use read_values::{Reading, layout_rules};
use std::alloc::{AllocError, Global};

const NAME_RULES: &[(Key, Reading)] = &[(Key::Name, Reading::Name)];

/// Page layouts, with what is left out in their elements.
#[derive(Debug, Drop)]
pub struct Layouts {
    /// The page layouts.
    pub layouts: List<PageLayout>,
    /// What is left out.
    pub left: LeftOut,
}

/// The page layouts of the elements that are kept.
pub fn read_layouts(alloc: Global, kept: &[&Element]) -> Result<Layouts, AllocError>
    ensures { IfOk result (λ read. LayoutsAre read (map (λ element. element.now) kept.now)) }
{
    let mut read = Layouts {
        layouts: List::new(alloc),
        left: LeftOut::nothing(),
    };
    'kept: for element in kept {
        read = with_layout(alloc, read, element)?;
    }
    Ok(read)
}

// One more page layout, if the element has a name.
fn with_layout(alloc: Global, read: Layouts, element: &Element) -> Result<Layouts, AllocError>
    ensures { IfOk result (λ more. (before : List Element) → LayoutsAre read before → LayoutsAre more (before ++ element.now ∷ [])) }
{
    let Layouts { mut layouts, left } = read;
    add_layout(alloc, &mut layouts, element)?;
    Ok(Layouts {
        layouts,
        left: left.both(layout_left(element)),
    })
}

// Adds the page layout that an element is, if it has a name.
fn add_layout(
    alloc: Global,
    layouts: &mut List<PageLayout>,
    element: &Element,
) -> Result<(), AllocError>
    ensures { OnOk result (layouts.new ≡ layouts.old ++ layouts_in element.now) }
{
    match name_of(element) {
        Some(name) => {
            let part = first(Tag::PageLayoutProperties, element);
            layouts.push(layout_of(alloc, name, part_attributes(part))?)
        }
        None => Ok(()),
    }
}

// A page layout of a name, by the attributes of its dimensions.
fn layout_of(alloc: Global, name: &str, attributes: &[Attribute]) -> Result<PageLayout, AllocError>
    ensures { IfOk result (λ layout. layout ≡ styles.layout_of (chars name.now) attributes.now) }
{
    let name = Name::from_list(String::from_str(alloc, name)?);
    Ok(PageLayout {
        name,
        width: stated_length(Key::PageWidth, attributes),
        height: stated_length(Key::PageHeight, attributes),
        left: margin(Key::MarginLeft, attributes),
        right: margin(Key::MarginRight, attributes),
        top: margin(Key::MarginTop, attributes),
        bottom: margin(Key::MarginBottom, attributes),
    })
}

// What is left out in a page layout.
fn layout_left(element: &Element) -> LeftOut
    ensures { result ≡ shown (styles.layout_left element.now) }
{
    let part = first(Tag::PageLayoutProperties, element);
    LeftOut::nothing()
        .both(attributes_out(NAME_RULES, element))
        .both(children_left(part_count(part), element))
        .both(part_left(layout_rules(), part))
}
