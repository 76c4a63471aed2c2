//! The key of a paragraph in a round.

ghost use Rattle.std.specs.Prelude.{◌≡◌, IfOk};
ghost use Rattle.doc_model.specs.declared.document.Document.{Document};
ghost use Rattle.key_parts.specs.Displays.{displays_of};
ghost use Rattle.format_model.specs.Keys.{Standing, par_of, shown_under, key_under};
ghost use Rattle.round_pars.specs.Pars.{IsRoundPar};
ghost use Rattle.round_keys.specs.Places.{StandsAt};

use crate::limits::{are_few, are_short, is_short};
use crate::pages::columns_on_page;
use doc_model::Txt;
use field_model::Shown;
use key_parts::{KeyParts, SpanDisplay, key_of};
use line_model::Key;
use page_lookup::IndexedTable;
use round_pars::RoundPar;
use std::alloc::{AllocError, Global};

/// What all keys of a round are made of.
#[derive(Debug, Clone, Copy)]
pub struct KeyRound<'a> {
    /// The text styles that state whether they are shown.
    pub displays: &'a [SpanDisplay],
    /// The page table that the round before left.
    pub table: &'a IndexedTable,
}

/// Where a paragraph stands.
#[derive(Debug, Clone, Copy)]
pub struct KeyPlace<'a> {
    /// Whether a section around it, or around the anchor of its note, is hidden.
    pub in_hidden_section: bool,
    /// Whether it stands in a note whose item isn't shown.
    pub in_hidden_note: bool,
    /// The citation of the note whose first paragraph it is, else empty.
    pub citation: &'a Txt,
    /// Its columns where the table has no page of it.
    pub columns: u32,
}

/// The key of a paragraph in a round, by where it stands and what its fields and notes show. A paragraph of more than 32768
/// items, and a label or text of more than 512 characters, are refused as want of memory is.
pub fn key_of_par(
    alloc: Global,
    round: KeyRound,
    par: &RoundPar,
    place: KeyPlace,
    shown: &[Shown],
) -> Result<Key, AllocError>
    ensures { (doc : Document) (one : Standing) → round.entry.displays.now ≡ displays_of doc.styles → IsRoundPar doc one par.now → StandsAt doc round.entry.table.now one place.entry → shown.now ≡ shown_under doc round.entry.table.now (par_of one) → IfOk result (λ key. key ≡ key_under doc round.entry.table.now one) }
{
    let text = par.text;
    let (items, more_items) = text.items.slice(0, text.items.len());
    if !are_few(items, more_items) {
        return Err(AllocError);
    }
    if !is_short(place.citation) {
        return Err(AllocError);
    }
    if !is_short(&text.label.full) {
        return Err(AllocError);
    }
    if !are_short(shown) {
        return Err(AllocError);
    }
    let columns = columns_on_page(round.table, text.head.id).unwrap_or(place.columns);
    let parts = KeyParts {
        in_hidden_section: place.in_hidden_section,
        in_hidden_note: place.in_hidden_note,
        citation: place.citation,
        label: &text.label.full,
        items,
        more_items,
        shown,
        displays: round.displays,
        list: &text.head.list,
        props: &par.props,
        columns,
    };
    key_of(alloc, &parts)
}
