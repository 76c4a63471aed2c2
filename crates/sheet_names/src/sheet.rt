//! All that is read of the style parts and of the part of masters.
ghost use Rattle.std.specs.Prelude.{◌≡◌, map, IfOk};
ghost use Rattle.std.specs.Prelude.{false};
ghost use Rattle.std.specs.Option.{option_map, option_map_or};
ghost use Rattle.doc_model.specs.declared.style.Family.TheVariants as family;
ghost use Rattle.style_model.specs.Lineage.{is_same_family};
ghost use Rattle.std.specs.List.{find};
ghost use Rattle.load_model.specs.declared.names.Tag.TheVariants as tag;
ghost use Rattle.load_model.specs.Left.{is, children};
ghost use Rattle.load_model.specs.Styles as styles;
ghost use Rattle.sheet_kept.specs.Kept.{Keeps};
ghost use Rattle.sheet_names.specs.Sheets.{IsSheet};

use crate::family::family_of;
use crate::kept_styles::first_styles;
use crate::names::Names;
use doc_model::Family;
use element_parts::{first, is};
use load_model::{Element, Tag};
use sheet_kept::{InPart, Named, first_named, held_by, in_parts, style_parts};
use std::alloc::{AllocError, Global};

/// What is read of the style parts and of the part of masters: the first of each name.
#[derive(Drop)]
pub struct Sheet<'a> {
    /// The style parts.
    pub parts: Vec<&'a Element>,
    /// What they hold.
    pub held: Vec<InPart<'a>>,
    /// The styles.
    pub styles: Vec<InPart<'a>>,
    /// The default style of paragraphs.
    pub default_style: Option<&'a Element>,
    /// The outline style.
    pub outline: Option<&'a Element>,
    /// The list styles.
    pub lists: Vec<&'a Element>,
    /// The page layouts.
    pub layouts: Vec<&'a Element>,
    /// The masters.
    pub masters: Vec<&'a Element>,
    /// The names that can be referred to.
    pub names: Names,
}

/// What is read of a tree.
pub fn sheet_of<'a>(alloc: Global, root: &'a Element) -> Result<Sheet<'a>, AllocError>
    ensures { IfOk result (λ sheet. IsSheet sheet root.now) }
{
    let parts = style_parts(alloc, root)?;
    let held = in_parts(alloc, root)?;
    let all = held.as_slice();
    let styles = first_styles(alloc, all)?;
    let lists = first_named(alloc, Tag::ListStyle, all)?;
    let layouts = first_named(alloc, Tag::PageLayout, all)?;
    let masters = first_masters(alloc, root)?;
    let default_style = first_default(all);
    let outline = first_outline(all);
    Ok(Sheet {
        parts,
        held,
        styles: styles.styles,
        default_style,
        outline,
        lists: lists.elements,
        layouts: layouts.elements,
        masters: masters.elements,
        names: Names {
            styles: styles.names,
            lists: lists.names,
            layouts: layouts.names,
            masters: masters.names,
        },
    })
}

// The masters that are kept.
fn first_masters<'a>(alloc: Global, root: &'a Element) -> Result<Named<'a>, AllocError>
    ensures { IfOk result (λ kept. Keeps tag.MasterPage (styles.masters_in root.now) kept) }
{
    match first(Tag::MasterStyles, root) {
        Some(part) => masters_of(alloc, part),
        None => first_named(alloc, Tag::MasterPage, &[]),
    }
}

// The masters that are kept of a part.
fn masters_of<'a>(alloc: Global, part: &'a Element) -> Result<Named<'a>, AllocError>
    ensures { IfOk result (λ kept. Keeps tag.MasterPage (children part.now) kept) }
{
    let held = held_by(alloc, part)?;
    first_named(alloc, Tag::MasterPage, held.as_slice())
}

// The default style of paragraphs: the first one.
fn first_default<'a>(held: &[InPart<'a>]) -> Option<&'a Element>
    ensures { option_map (λ element. element.now) result ≡ find styles.is_default_style (map (λ one. one.element.now) held.now) }
{
    'held: for one in held {
        if is_default(one.element) {
            return Some(one.element);
        }
    }
    None
}

// Whether an element is a default style of paragraphs.
fn is_default(element: &Element) -> bool
    ensures { result ≡ styles.is_default_style element.now }
{
    is(Tag::DefaultStyle, element) && is_of_paragraphs(element)
}

// Whether a style states the family of paragraphs.
fn is_of_paragraphs(element: &Element) -> bool
    ensures { result ≡ option_map_or (is_same_family family.Paragraph) (styles.family_of element.now) false }
{
    match family_of(element) {
        Some(Family::Paragraph) => true,
        _ => false,
    }
}

// The outline style: the first one.
fn first_outline<'a>(held: &[InPart<'a>]) -> Option<&'a Element>
    ensures { option_map (λ element. element.now) result ≡ find (is tag.OutlineStyle) (map (λ one. one.element.now) held.now) }
{
    'held: for one in held {
        if is(Tag::OutlineStyle, one.element) {
            return Some(one.element);
        }
    }
    None
}
