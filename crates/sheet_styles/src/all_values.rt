//! All that the style parts say.
ghost use Rattle.std.specs.Prelude.{◌≡◌, ◌+◌, ◌-◌, [], map, option_to_list, IfOk};
ghost use Rattle.std.specs.Option.{option_map, option_map_or};
ghost use Rattle.doc_model.specs.declared.style.Family.TheVariants as family;
ghost use Rattle.doc_model.specs.Empty.{unstated};
ghost use Rattle.load_model.specs.declared.element.Element.{Element};
ghost use Rattle.load_model.specs.Left as left;
ghost use Rattle.load_model.specs.Styles as styles;
ghost use Rattle.load_model.specs.Values.{attributes_left};
ghost use Rattle.element_parts.specs.Shown.{shown};
ghost use Rattle.sheet_names.specs.Sheets.{IsSheet};
ghost use Rattle.sheet_styles.specs.Read.{AreValues};

use crate::properties::{properties_left, style_properties};
use crate::styles::read_styles;
use doc_model::{Family, List, ListStyle, PageLayout, Props, Style};
use element_parts::{LeftOut, attributes_out};
use load_model::{Element, Key};
use read_values::Reading;
use sheet_names::Sheet;
use sheet_values::{part_count, read_layouts, read_list_styles, read_outline};
use std::alloc::{AllocError, Global};

/// What the style parts say, and what is left out in them.
#[derive(Debug, Drop)]
pub struct SheetValues {
    /// The styles: those that aren't automatic first.
    pub styles: List<Style>,
    /// The properties of the default style of paragraphs.
    pub defaults: Props,
    /// The list styles.
    pub lists: List<ListStyle>,
    /// The outline style.
    pub outline: ListStyle,
    /// The page layouts.
    pub layouts: List<PageLayout>,
    /// What is left out.
    pub left: LeftOut,
}

/// All that the style parts say, by what is read of them.
pub fn read_sheet(alloc: Global, sheet: &Sheet<'_>) -> Result<SheetValues, AllocError>
    ensures { IfOk result (λ read. (root : Element) → IsSheet sheet.now root → AreValues read root) }
{
    let parts = sheet.parts.as_slice();
    let kept_styles = sheet.styles.as_slice();
    let kept_lists = sheet.lists.as_slice();
    let kept_layouts = sheet.layouts.as_slice();
    let styles = read_styles(alloc, &sheet.names, kept_styles)?;
    let lists = read_list_styles(alloc, kept_lists)?;
    let outline = read_outline(alloc, sheet.outline)?;
    let layouts = read_layouts(alloc, kept_layouts)?;
    let left = LeftOut::nothing()
        .both(parts_left(parts))
        .both(held_left(sheet))
        .both(styles.left)
        .both(default_left(sheet.default_style))
        .both(lists.left)
        .both(outline.left)
        .both(layouts.left);
    Ok(SheetValues {
        styles: styles.styles,
        defaults: defaults(sheet.default_style),
        lists: lists.styles,
        outline: outline.style,
        layouts: layouts.layouts,
        left,
    })
}

// The properties of the default style.
fn defaults(default_style: Option<&Element>) -> Props
    ensures { result ≡ option_map_or (styles.style_properties family.Paragraph) (option_map (λ element. element.now) default_style.entry) unstated }
{
    match default_style {
        Some(element) => style_properties(Family::Paragraph, element),
        None => Props::unstated(),
    }
}

const FAMILY_RULES: &[(Key, Reading)] = &[(Key::Family, Reading::Family)];

// What is left out in the default style, if it is there.
fn default_left(default_style: Option<&Element>) -> LeftOut
    ensures { result ≡ shown (left.all_of (map styles.default_left (option_to_list (option_map (λ element. element.now) default_style.entry)))) }
{
    match default_style {
        Some(element) => {
            let own = attributes_out(FAMILY_RULES, element);
            let own = own.both(properties_left(Family::Paragraph, element));
            LeftOut::nothing().both(own)
        }
        None => LeftOut::nothing(),
    }
}

// The attributes of the parts, of which none has a rule.
fn parts_left(parts: &[&Element]) -> LeftOut
    ensures { result ≡ shown (left.all_of (map (λ part. left.only_attributes (attributes_left [] (left.attributes_of part))) (map (λ part. part.now) parts.now))) }
{
    let mut total = LeftOut::nothing();
    'parts: for part in parts {
        total = total.both(attributes_out(&[], part));
    }
    total
}

// The elements of the parts that aren't read.
fn held_left(sheet: &Sheet<'_>) -> LeftOut
    ensures { (root : Element) → IsSheet sheet.now root → result ≡ shown (left.all_but (styles.read_in_parts root) (map (λ in_part. in_part.element) (styles.in_parts root))) }
{
    let held = sheet.held.as_slice();
    let styles = sheet.styles.as_slice();
    let lists = sheet.lists.as_slice();
    let layouts = sheet.layouts.as_slice();
    LeftOut::elements(unread(
        held.len(),
        styles.len(),
        part_count(sheet.default_style),
        lists.len(),
        part_count(sheet.outline),
        layouts.len(),
    ))
}

// How many of so many elements aren't read.
fn unread(
    held: usize,
    styles: usize,
    defaults: usize,
    lists: usize,
    outlines: usize,
    layouts: usize,
) -> usize
    ensures { result ≡ held - (styles + defaults + lists + outlines + layouts) }
{
    held.saturating_sub(styles)
        .saturating_sub(defaults)
        .saturating_sub(lists)
        .saturating_sub(outlines)
        .saturating_sub(layouts)
}
