//! A page that is closed.

ghost use Rattle.std.specs.Prelude.{◌≡◌, ◌++◌, take, map, IfOk};
ghost use Rattle.std.specs.List.{filter_map};
ghost use Rattle.std.specs.Option.{option_map};
ghost use Rattle.page_model.specs.Bodies.{texts_of as page_texts};
ghost use Rattle.paginate.specs.Heads.{heads_behind as later_heads};

use crate::breaker::Closed;
use crate::contents::{push_note_places, push_note_texts, push_row_places, texts_of};
use crate::heads::heads_behind;
use crate::turn::Turn;
use doc_model::List;
use page_model::{HeadText, NoteRow, PageBody, Row};
use std::alloc::{AllocError, Global};

/// The page with these rows and note rows, which are told in two parts. These are the last headings before it.
pub fn closed(
    alloc: Global,
    turn: &Turn,
    heads: &[Option<HeadText>],
    rows: &[Row],
    carried: &[NoteRow],
    added: &[NoteRow],
) -> Result<Closed, AllocError>
    ensures number { IfOk result (λ page. page.body.number ≡ turn.now.number) }
    ensures master { IfOk result (λ page. page.body.master ≡ turn.now.master) }
    ensures columns { IfOk result (λ page. page.body.columns ≡ turn.now.columns) }
    ensures body { IfOk result (λ page. page.body.body ≡ page_texts rows.now) }
    ensures notes { IfOk result (λ page. page.body.notes ≡ map (λ row. row.text) carried.now ++ map (λ row. row.text) added.now) }
    ensures heads { IfOk result (λ page. page.body.heads ≡ later_heads heads.now rows.now) }
    ensures firsts { IfOk result (λ page. page.firsts ≡ filter_map (λ row. option_map (λ first. first.place) row.first) rows.now ++ filter_map (λ row. row.place) carried.now ++ filter_map (λ row. row.place) added.now) }
{
    let heads = heads_behind(alloc, heads, rows)?;
    let body = texts_of(alloc, rows)?;
    let mut notes = List::new(alloc);
    push_note_texts(&mut notes, carried)?;
    push_note_texts(&mut notes, added)?;
    let mut firsts = List::new(alloc);
    push_row_places(&mut firsts, rows)?;
    push_note_places(&mut firsts, carried)?;
    push_note_places(&mut firsts, added)?;
    Ok(Closed {
        body: PageBody {
            number: turn.number,
            master: turn.master,
            columns: turn.columns,
            body,
            notes,
            heads,
        },
        firsts,
    })
}

/// The first ones of note rows, at most so many.
pub fn first_notes(notes: &[NoteRow], count: usize) -> &[NoteRow]
    ensures { result.now ≡ take count notes.now }
{
    if count < notes.len() {
        &notes[..count]
    } else {
        notes
    }
}
