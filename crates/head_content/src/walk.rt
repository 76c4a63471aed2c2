//! The content of a header, element by element.
ghost use Rattle.std.specs.Prelude.{◌≡◌, OnOk};
ghost use Rattle.load_model.specs.declared.element.Element.{out-Element};
ghost use Rattle.load_model.specs.Headers.{within};
ghost use Rattle.load_model.specs.Styles as styles;
ghost use Rattle.element_parts.specs.Shown.{shown};
ghost use Rattle.sheet_names.specs.Known.{Knows};
ghost use Rattle.head_content.specs.Walk.{AddsBy, given_by, span_in, span_left};

use crate::head_items::HeadItems;
use crate::leaves::{push_break, push_field, push_spaces, push_stored, push_tab};
use crate::parts::{Part, part_of};
use doc_model::Family;
use element_parts::LeftOut;
use load_model::{Attribute, Element, Key};
use read_values::value_of;
use sheet_names::Names;
use std::alloc::{AllocError, Global};

/// Adds what an element holds.
#[cycle(push_element)]
#[tactic(auto, using(met_read::proofs::SizeLemmas::smaller))]
pub(crate) fn push_inside(
    alloc: Global,
    names: &Names,
    element: &Element,
    read: &mut HeadItems,
) -> Result<(), AllocError>
    ensures { OnOk result (AddsBy names.now read.old read.new (given_by (out-Element element.now).nodes)) }
{
    read.push_text(alloc, element.nodes.first())?;
    for turn in element.nodes.turns() {
        push_element(alloc, names, &turn.elem, read)?;
        read.push_text(alloc, turn.after.get())?;
    }
    Ok(())
}

// Adds what an element gives.
#[cycle(push_element)]
fn push_element(
    alloc: Global,
    names: &Names,
    element: &Element,
    read: &mut HeadItems,
) -> Result<(), AllocError>
    ensures { OnOk result (AddsBy names.now read.old read.new (within element.now).content) }
{
    match part_of(element.tag) {
        Part::Span => push_span(alloc, names, element, read),
        Part::Spaces => push_spaces(alloc, element, read),
        Part::Tab => push_tab(alloc, element, read),
        Part::Break => push_break(alloc, element, read),
        Part::Field => push_field(alloc, element, read),
        Part::StoredText => push_stored(alloc, element, read),
        Part::Dropped => {
            read.leave_out(LeftOut::elements(1));
            Ok(())
        }
        Part::Passed => {
            read.leave_out(LeftOut::elements(1));
            push_inside(alloc, names, element, read)
        }
    }
}

// Adds what a span holds. Its style isn't kept.
#[cycle(push_element)]
fn push_span(
    alloc: Global,
    names: &Names,
    element: &Element,
    read: &mut HeadItems,
) -> Result<(), AllocError>
    ensures { OnOk result (AddsBy names.now read.old read.new (span_in element.now)) }
{
    read.leave_out(span_left(names, element.attributes.get()));
    push_inside(alloc, names, element, read)
}

// What is left out with a span: nothing without a style, the attribute where its style isn't there, and else the element.
fn span_left(names: &Names, attributes: &[Attribute]) -> LeftOut
    ensures { (known : styles.Names) → Knows names.now known → result ≡ shown (span_left known attributes.now) }
{
    match value_of(Key::StyleName, attributes) {
        Some(text) => match names.style_reference(Family::Text, text) {
            Some(_) => LeftOut::elements(1),
            None => LeftOut::attributes(1),
        },
        None => LeftOut::nothing(),
    }
}
