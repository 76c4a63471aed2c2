//! Notes with their paragraphs.

ghost use Rattle.std.specs.Prelude.{◌≡◌, ◌++◌, ℕ, List, true, unwrap_or, option_copied, option_to_list, IfOk, OnOk};
ghost use Rattle.std.specs.List.{flat_map};
ghost use Rattle.doc_model.specs.declared.document.Document.{Document};
ghost use Rattle.doc_model.specs.Reading.{note_of};
ghost use Rattle.key_parts.specs.Displays.{displays_of};
ghost use Rattle.format_model.specs.Standing.{BodyPar, notes_from, props_of};
ghost use Rattle.format_model.specs.Keys.{Standing, standing_in_note};
ghost use Rattle.round_pars.specs.Pars.{AreRoundPars};
ghost use Rattle.round_texts.specs.Texts.{AreNoteTexts, own_notes};

use crate::left::ParsLeft;
use doc_model::{Item, Note, NoteClass, What};
use key_parts::{SpanDisplay, is_shown_in};
use round_pars::RoundPar;
use std::alloc::{AllocError, Global};

/// A note with its paragraphs.
#[derive(Debug, Drop)]
pub struct NoteText<'a> {
    /// Whether it is a footnote or an endnote.
    pub class: NoteClass,
    /// The place of its item in its paragraph, from 0.
    pub item: usize,
    /// Whether that is shown.
    pub is_shown: bool,
    /// Its paragraphs.
    pub pars: &'a [RoundPar<'a>],
}

/// The notes among the items of a paragraph of the body, by the paragraphs that are left. Where no span states it, `otherwise` says
/// whether an item is shown.
pub(crate) fn note_texts<'a>(
    alloc: Global,
    displays: &[SpanDisplay],
    otherwise: bool,
    items: &[Item],
    left: &mut ParsLeft<'a>,
) -> Result<Vec<NoteText<'a>>, AllocError>
    ensures { (doc : Document) (placed : BodyPar) (after : List Standing) → displays.now ≡ displays_of doc.styles → otherwise ≡ unwrap_or (props_of doc placed.par).display true → AreRoundPars doc (flat_map (standing_in_note placed) (notes_from doc placed.par 0 1 items.now) ++ after) left.old.pars.now → IfOk result (λ notes. AreNoteTexts doc placed (notes_from doc placed.par 0 1 items.now) notes.items × AreRoundPars doc after left.new.pars.now) }
{
    let mut notes = Vec::new(alloc);
    'items: for (at, item) in items.iter().enumerate() {
        let note = note_text(displays, otherwise, at, item, left)?;
        push_some(&mut notes, note)?;
    }
    Ok(notes)
}

/// The note that an item is, if it is one, by the paragraphs that are left.
fn note_text<'a>(
    displays: &[SpanDisplay],
    otherwise: bool,
    at: usize,
    item: &Item,
    left: &mut ParsLeft<'a>,
) -> Result<Option<NoteText<'a>>, AllocError>
    ensures { (doc : Document) (placed : BodyPar) (number : ℕ) (after : List Standing) → displays.now ≡ displays_of doc.styles → otherwise ≡ unwrap_or (props_of doc placed.par).display true → AreRoundPars doc (flat_map (standing_in_note placed) (own_notes doc placed.par at number item.now) ++ after) left.old.pars.now → IfOk result (λ note. AreNoteTexts doc placed (own_notes doc placed.par at number item.now) (option_to_list note) × AreRoundPars doc after left.new.pars.now) }
{
    let Some(note) = note_of(item) else {
        return Ok(None);
    };
    let pars = left.next_pars(note.pars.len())?;
    Ok(Some(NoteText {
        class: note.class,
        item: at,
        is_shown: is_shown_in(displays, otherwise, item.spans.get()),
        pars,
    }))
}

/// The note that an item is, if it is one.
fn note_of(item: &Item) -> Option<&Note>
    ensures { option_to_list (option_copied result) ≡ note_of item.now }
{
    match &item.what {
        What::Note(note) => Some(note.get()),
        _ => None,
    }
}

/// Adds a note, if there is one.
fn push_some<'a>(
    notes: &mut Vec<NoteText<'a>>,
    note: Option<NoteText<'a>>,
) -> Result<(), AllocError>
    ensures { OnOk result (notes.new.items ≡ notes.old.items ++ option_to_list note.entry) }
{
    match note {
        Some(note) => {
            notes.push(note)?;
            Ok(())
        }
        None => Ok(()),
    }
}
