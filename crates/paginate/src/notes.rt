//! The rows of footnotes.

ghost use Rattle.std.specs.Prelude.{◌≡◌, ◌+◌, ◌∷◌, [], ◌++◌, ◌<◌, ◌^◌, IfOk, OnOk, length, Some};
ghost use Rattle.page_model.specs.BodyRows.{note_pars, rows_of_note, rows_of_note_par};
ghost use Rattle.paginate.specs.Uncited.{cited, cited_at};

use doc_model::{List, Txt};
use page_model::{NotePar, NoteRow, NoteRows, Row};
use std::alloc::AllocError;

/// Adds the rows of footnotes to the rows of the paragraph that cites them, each to the row of its citation. The first of
/// their paragraphs has this place in the order in which paragraphs are set. Each footnote is looked at once.
pub fn cite_notes(rows: &mut Vec<Row>, place: usize, notes: &[NoteRows]) -> Result<(), AllocError>
    requires { place + note_pars notes.now < 2 ^ 64 }
    ensures { OnOk result (rows.new.items ≡ cited place notes.now rows.old.items) }
{
    let mut place = place;
    'notes: for note in notes {
        cite_note(rows, place, note)?;
        place += note.pars.len();
    }
    Ok(())
}

/// Adds the rows of a footnote to the row of its citation.
fn cite_note(rows: &mut Vec<Row>, place: usize, note: &NoteRows) -> Result<(), AllocError>
    requires { place + length note.now.pars < 2 ^ 64 }
    ensures { OnOk result (rows.new.items ≡ cited_at note.now.line (rows_of_note place note.now.pars) rows.old.items) }
{
    let Some(line) = note.line else {
        return Ok(());
    };
    let line = line as usize;
    if line >= rows.len() {
        return Ok(());
    }
    push_note(&mut rows[line].notes, place, note.pars.get())?;
    Ok(())
}

/// Adds the rows of the paragraphs of a footnote.
fn push_note(rows: &mut List<NoteRow>, place: usize, pars: &[NotePar]) -> Result<(), AllocError>
    requires { place + length pars.now < 2 ^ 64 }
    ensures { OnOk result (rows.new ≡ rows.old ++ rows_of_note place pars.now) }
{
    'pars: for (index, par) in pars.iter().enumerate() {
        push_note_par(rows, place + index, par.lines.get())?;
    }
    Ok(())
}

/// Adds the rows of a paragraph of a footnote.
fn push_note_par(rows: &mut List<NoteRow>, place: usize, lines: &[Txt]) -> Result<(), AllocError>
    ensures { OnOk result (rows.new ≡ rows.old ++ rows_of_note_par place lines.now) }
{
    let Some((line, more)) = lines.split_first() else {
        return Ok(());
    };
    push_line(rows, Some(place), line)?;
    for line in more {
        push_line(rows, None, line)?;
    }
    Ok(())
}

/// Adds a row.
fn push_line(rows: &mut List<NoteRow>, place: Option<usize>, line: &Txt) -> Result<(), AllocError>
    ensures { OnOk result (rows.new ≡ rows.old ++ record { place = place; text = line.now } ∷ []) }
{
    let text = line.copy()?;
    rows.push(NoteRow { place, text })
}
