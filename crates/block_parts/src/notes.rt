//! Notes.
ghost use Rattle.std.specs.Prelude.{◌≡◌, ◌∷◌, [], filter, length, map, option_to_list, IfOk};
ghost use Rattle.std.specs.Option.{option_map};
ghost use Rattle.load_model.specs.Blocks as blocks;
ghost use Rattle.load_model.specs.Left.{attributes_of, children};
ghost use Rattle.load_model.specs.declared.names.Key.TheVariants as key;
ghost use Rattle.load_model.specs.Values as values;
ghost use Rattle.load_model.specs.Values.{stated_or};
ghost use Rattle.element_parts.specs.Shown.{shown};
ghost use Rattle.block_parts.specs.Values.{note_by};
ghost use Rattle.block_parts.specs.Notes.{left_in, citations, attributes_in, is_citation};

use crate::texts::id_stated;
use doc_model::{Note, NoteClass, Par};
use element_parts::{LeftOut, attributes_out, first, is};
use load_model::{Attribute, Element, Key, Tag};
use markup_nodes::Turn;
use read_values::{Reading, note_class, value_of};
use sqlite_items::Items;
use std::alloc::{AllocError, Global};

/// The note that an element is, with its paragraphs. Its id is its own where it is the first of that name.
pub fn note_with(
    alloc: Global,
    is_first: bool,
    element: &Element,
    pars: Items<Par>,
) -> Result<Note, AllocError>
    ensures { IfOk result (λ note. note ≡ note_by is_first (attributes_of element.now) pars) }
{
    let attributes = element.attributes.get();
    let id = id_stated(alloc, is_first, attributes)?;
    Ok(Note {
        id,
        class: class_stated(attributes),
        pars,
    })
}

// The class of a note.
fn class_stated(attributes: &[Attribute]) -> NoteClass
    ensures { result ≡ stated_or key.NoteClass values.note_class NoteClass.Footnote attributes.now }
{
    match value_of(Key::NoteClass, attributes) {
        Some(text) => note_class(text).unwrap_or(NoteClass::Footnote),
        None => NoteClass::Footnote,
    }
}

/// The attributes of a note that are left out.
pub fn note_attributes_left(is_first: bool, element: &Element) -> LeftOut
    ensures { result ≡ shown (blocks.left_by (blocks.note_rules is_first) (attributes_of element.now)) }
{
    attributes_out(
        &[
            (Key::Id, Reading::OwnName(is_first)),
            (Key::NoteClass, Reading::NoteClass),
        ],
        element,
    )
}

/// What else is left out in a note, but for what its body holds: elements other than citations and the first body, and the
/// attributes of these.
pub fn note_left(element: &Element) -> LeftOut
    ensures { result ≡ shown (left_in (children element.now)) }
{
    let turns = element.nodes.turns();
    let body = first(Tag::NoteBody, element);
    let others = element
        .nodes
        .len()
        .saturating_sub(body_count(body))
        .saturating_sub(citations(turns));
    LeftOut::elements(others).both(body_left(body).both(citations_left(turns)))
}

// How many elements a body is: one, if it is there.
fn body_count(body: Option<&Element>) -> usize
    ensures { result ≡ length (option_to_list (option_map (λ element. element.now) body.entry)) }
{
    match body {
        Some(_) => 1,
        None => 0,
    }
}

// The attributes of a body that are left out, if it is there.
fn body_left(body: Option<&Element>) -> LeftOut
    ensures { result ≡ shown (attributes_in (option_to_list (option_map (λ element. element.now) body.entry))) }
{
    match body {
        Some(element) => LeftOut::nothing().both(bare_left(element)),
        None => LeftOut::nothing(),
    }
}

// The attributes of an element that are left out, where none has a rule.
fn bare_left(element: &Element) -> LeftOut
    ensures { result ≡ shown (blocks.left_by [] (attributes_of element.now)) }
{
    attributes_out(&[], element)
}

// How many of some elements are citations.
fn citations(turns: &[Turn<Element>]) -> usize
    ensures { result ≡ length (filter is_citation turns.now) }
{
    let mut count = 0;
    'turns: for turn in turns {
        if is_citation(turn) {
            count += 1;
        }
    }
    count
}

// Whether an element is a citation.
fn is_citation(turn: &Turn<Element>) -> bool
    ensures { result ≡ is_citation turn.now }
{
    is(Tag::NoteCitation, &turn.elem)
}

// The attributes of citations that are left out.
fn citations_left(turns: &[Turn<Element>]) -> LeftOut
    ensures { result ≡ shown (attributes_in (citations (map (λ turn. turn.elem) turns.now))) }
{
    let mut total = LeftOut::nothing();
    'turns: for turn in turns {
        total = total.both(citation_left(&turn.elem));
    }
    total
}

// The attributes of an element that are left out, if it is a citation.
fn citation_left(element: &Element) -> LeftOut
    ensures { result ≡ shown (attributes_in (citations (element.now ∷ []))) }
{
    if is(Tag::NoteCitation, element) {
        return LeftOut::nothing().both(bare_left(element));
    }
    LeftOut::nothing()
}
