//! The styles of a file.
ghost use Rattle.std.specs.Prelude.{◌≡◌, ◌++◌, ◌∷◌, [], map, OnOk, IfOk};
ghost use Rattle.element_parts.specs.Shown.{shown};
ghost use Rattle.sheet_kept.specs.Held.{seen};
ghost use Rattle.sheet_styles.specs.Read.{styles_with, left_at, all_left, ReadStylesAre};

use crate::properties::properties_left;
use crate::rules::attributes_count;
use crate::style::style_of;
use doc_model::{List, Style};
use element_parts::LeftOut;
use load_model::Element;
use sheet_kept::InPart;
use sheet_names::{Names, style_key};
use std::alloc::{AllocError, Global};

/// Styles, with what is left out in their elements.
#[derive(Debug, Drop)]
pub struct ReadStyles {
    /// The styles: those that aren't automatic first.
    pub styles: List<Style>,
    /// What is left out.
    pub left: LeftOut,
}

/// The styles that are kept, where these names can be referred to.
pub fn read_styles(
    alloc: Global,
    names: &Names,
    kept: &[InPart<'_>],
) -> Result<ReadStyles, AllocError>
    ensures { IfOk result (λ read. ReadStylesAre names.now (map seen kept.now) read) }
{
    let mut styles = List::new(alloc);
    add_styles(alloc, names, false, kept, &mut styles)?;
    add_styles(alloc, names, true, kept, &mut styles)?;
    Ok(ReadStyles {
        styles,
        left: styles_left(names, kept),
    })
}

// Adds the styles that are automatic, or those that aren't.
fn add_styles(
    alloc: Global,
    names: &Names,
    is_auto: bool,
    kept: &[InPart<'_>],
    styles: &mut List<Style>,
) -> Result<(), AllocError>
    ensures { OnOk result (styles.new ≡ styles.old ++ styles_with names.now is_auto (map seen kept.now)) }
{
    'kept: for one in kept {
        add_style(alloc, names, is_auto, *one, styles)?;
    }
    Ok(())
}

// Adds the style that an element is, if it is automatic, or if it isn't.
fn add_style(
    alloc: Global,
    names: &Names,
    is_auto: bool,
    one: InPart<'_>,
    styles: &mut List<Style>,
) -> Result<(), AllocError>
    ensures { OnOk result (styles.new ≡ styles.old ++ styles_with names.now is_auto (seen one.entry ∷ [])) }
{
    if one.auto != is_auto {
        return Ok(());
    }
    match style_key(one.element) {
        Some(style) => styles.push(style_of(alloc, names, is_auto, style, one.element)?),
        None => Ok(()),
    }
}

// What is left out in styles.
fn styles_left(names: &Names, kept: &[InPart<'_>]) -> LeftOut
    ensures { result ≡ shown (all_left names.now (map seen kept.now)) }
{
    let mut total = LeftOut::nothing();
    'kept: for one in kept {
        total = total.both(style_left(names, one.element));
    }
    total
}

// What is left out in a style.
fn style_left(names: &Names, element: &Element) -> LeftOut
    ensures { result ≡ shown (left_at names.now element.now) }
{
    match style_key(element) {
        Some(style) => {
            let count = attributes_count(names, style.family, element.attributes.get());
            let own = LeftOut::attributes(count).both(properties_left(style.family, element));
            LeftOut::nothing().both(own)
        }
        None => LeftOut::nothing(),
    }
}
