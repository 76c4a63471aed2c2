//! The properties of styles.
ghost use Rattle.std.specs.Prelude.{◌≡◌, ◌+◌, length, option_to_list};
ghost use Rattle.std.specs.Option.{option_map};
ghost use Rattle.load_model.specs.Styles as styles;
ghost use Rattle.element_parts.specs.Shown.{shown};

use doc_model::{Family, Props};
use element_parts::{LeftOut, first, part_left};
use load_model::{Attribute, Element, Key, Tag};
use read_values::{paragraph_rules, text_rules};
use sheet_values::{
    children_left, margin, part_attributes, stated_alignment, stated_break, stated_display,
    stated_keep, stated_length, stated_lines, stated_page_start,
};

/// The properties that a style of a family states.
pub fn style_properties(family: Family, element: &Element) -> Props
    ensures { result ≡ styles.style_properties family element.now }
{
    match family {
        Family::Section => Props::unstated(),
        Family::Paragraph => part_properties(Family::Paragraph, element),
        Family::Text => part_properties(Family::Text, element),
    }
}

// The properties that the parts of a style state.
fn part_properties(family: Family, element: &Element) -> Props
    ensures { result ≡ styles.properties (styles.part_attributes (styles.paragraph_part family element.now)) (styles.part_attributes (styles.text_part element.now)) }
{
    properties(
        part_attributes(paragraph_part(family, element)),
        part_attributes(text_part(element)),
    )
}

// The paragraph properties of a style that are read: the first, in the family of paragraphs.
fn paragraph_part(family: Family, element: &Element) -> Option<&Element>
    ensures { option_map (λ part. part.now) result ≡ styles.paragraph_part family element.now }
{
    match family {
        Family::Paragraph => first(Tag::ParagraphProperties, element),
        Family::Text => None,
        Family::Section => None,
    }
}

// The text properties of a style that are read: the first.
fn text_part(element: &Element) -> Option<&Element>
    ensures { option_map (λ part. part.now) result ≡ styles.text_part element.now }
{
    first(Tag::TextProperties, element)
}

// The properties that attributes of paragraph properties and of text properties state.
fn properties(paragraph: &[Attribute], text: &[Attribute]) -> Props
    ensures { result ≡ styles.properties paragraph.now text.now }
{
    Props {
        margin_left: margin(Key::MarginLeft, paragraph),
        margin_right: margin(Key::MarginRight, paragraph),
        margin_top: margin(Key::MarginTop, paragraph),
        margin_bottom: margin(Key::MarginBottom, paragraph),
        indent: stated_length(Key::Indent, paragraph),
        align: stated_alignment(Key::Align, paragraph),
        break_before: stated_break(Key::BreakBefore, paragraph),
        break_after: stated_break(Key::BreakAfter, paragraph),
        keep_next: stated_keep(Key::KeepNext, paragraph),
        keep_together: stated_keep(Key::KeepTogether, paragraph),
        widows: stated_lines(Key::Widows, paragraph),
        orphans: stated_lines(Key::Orphans, paragraph),
        page_number: stated_page_start(Key::PageNumber, paragraph),
        display: stated_display(Key::Display, text),
        tabs: None,
    }
}

/// What is left out in the properties of a style.
pub fn properties_left(family: Family, element: &Element) -> LeftOut
    ensures { result ≡ shown (styles.properties_left family element.now) }
{
    let paragraph = paragraph_part(family, element);
    let text = text_part(element);
    LeftOut::nothing()
        .both(children_left(count_both(paragraph, text), element))
        .both(part_left(paragraph_rules(), paragraph))
        .both(part_left(text_rules(family), text))
}

// How many elements two parts are.
fn count_both(one: Option<&Element>, other: Option<&Element>) -> usize
    ensures { result ≡ length (option_to_list (option_map (λ part. part.now) one.entry)) + length (option_to_list (option_map (λ part. part.now) other.entry)) }
{
    match (one, other) {
        (Some(_), Some(_)) => 2,
        (Some(_), None) => 1,
        (None, Some(_)) => 1,
        (None, None) => 0,
    }
}
