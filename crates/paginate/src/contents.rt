//! What stands on a page.

ghost use Rattle.std.specs.Prelude.{◌≡◌, ◌++◌, map, replicate, [], IfOk, OnOk};
ghost use Rattle.std.specs.List.{filter_map};
ghost use Rattle.std.specs.Option.{option_map};
ghost use Rattle.page_model.specs.Bodies.{texts_of};
ghost use Rattle.page_model.specs.Breaking.{notes_of as note_rows_of};

use crate::ends::blanks_first;
use doc_model::{List, Txt};
use page_model::{NoteRow, Row};
use std::alloc::{AllocError, Global};

/// The texts of rows that stand on a page, with empty texts as blank rows.
pub fn texts_of(alloc: Global, rows: &[Row]) -> Result<List<Txt>, AllocError>
    ensures { IfOk result (λ texts. texts ≡ texts_of rows.now) }
{
    let mut texts = List::new(alloc);
    'rows: for (index, row) in rows.iter().enumerate() {
        texts.push(row.text.copy()?)?;
        push_blanks(alloc, &mut texts, blanks_first(&rows[index..]))?;
    }
    Ok(texts)
}

/// Adds so many blank rows.
fn push_blanks(alloc: Global, texts: &mut List<Txt>, count: u32) -> Result<(), AllocError>
    ensures { OnOk result (texts.new ≡ texts.old ++ replicate count []) }
{
    for _ in 0..count {
        texts.push(Txt::none(alloc))?;
    }
    Ok(())
}

/// Adds the texts of note rows.
pub fn push_note_texts(texts: &mut List<Txt>, notes: &[NoteRow]) -> Result<(), AllocError>
    ensures { OnOk result (texts.new ≡ texts.old ++ map (λ note. note.text) notes.now) }
{
    for note in notes {
        texts.push(note.text.copy()?)?;
    }
    Ok(())
}

/// Copies of the note rows of rows.
pub fn notes_of(alloc: Global, rows: &[Row]) -> Result<Vec<NoteRow>, AllocError>
    ensures { IfOk result (λ notes. notes.items ≡ note_rows_of rows.now) }
{
    let mut notes = Vec::new(alloc);
    for row in rows {
        push_note_rows(&mut notes, row.notes.get())?;
    }
    Ok(notes)
}

/// Adds copies of note rows.
pub fn push_note_rows(notes: &mut Vec<NoteRow>, more: &[NoteRow]) -> Result<(), AllocError>
    ensures { OnOk result (notes.new.items ≡ notes.old.items ++ more.now) }
{
    for note in more {
        let text = note.text.copy()?;
        notes.push(NoteRow {
            place: note.place,
            text,
        })?;
    }
    Ok(())
}

/// Adds the places of the paragraphs whose first rows are among rows.
pub fn push_row_places(places: &mut List<usize>, rows: &[Row]) -> Result<(), AllocError>
    ensures { OnOk result (places.new ≡ places.old ++ filter_map (λ row. option_map (λ first. first.place) row.first) rows.now) }
{
    for row in rows {
        if let Some(first) = &row.first {
            places.push(first.place)?;
        }
    }
    Ok(())
}

/// Adds the places of the paragraphs whose first rows are among note rows.
pub fn push_note_places(places: &mut List<usize>, notes: &[NoteRow]) -> Result<(), AllocError>
    ensures { OnOk result (places.new ≡ places.old ++ filter_map (λ row. row.place) notes.now) }
{
    for note in notes {
        if let Some(place) = note.place {
            places.push(place)?;
        }
    }
    Ok(())
}
