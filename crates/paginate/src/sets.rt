//! The order in which paragraphs are set.

ghost use Rattle.std.specs.Prelude.{◌≡◌, ◌++◌, map, IfOk, OnOk};
ghost use Rattle.page_model.specs.BodyRows.{ids_of_notes, set_of_par as ids_of_par};

use doc_model::ParId;
use page_model::{NotePar, NoteRows, ParRows};
use std::alloc::{AllocError, Global};

/// The paragraphs of a placed one in the order in which they are set: those of its footnotes, and then itself.
pub fn set_of_par(alloc: Global, par: &ParRows) -> Result<Vec<ParId>, AllocError>
    ensures { IfOk result (λ set. set.items ≡ ids_of_par par.now) }
{
    let mut set = Vec::new(alloc);
    push_notes(&mut set, par.notes.get())?;
    set.push(par.par)?;
    Ok(set)
}

/// Adds the paragraphs of footnotes.
fn push_notes(set: &mut Vec<ParId>, notes: &[NoteRows]) -> Result<(), AllocError>
    ensures { OnOk result (set.new.items ≡ set.old.items ++ ids_of_notes notes.now) }
{
    for note in notes {
        push_pars(set, note.pars.get())?;
    }
    Ok(())
}

/// Adds the paragraphs of a footnote.
fn push_pars(set: &mut Vec<ParId>, pars: &[NotePar]) -> Result<(), AllocError>
    ensures { OnOk result (set.new.items ≡ set.old.items ++ map (λ note_par. note_par.par) pars.now) }
{
    for par in pars {
        set.push(par.par)?;
    }
    Ok(())
}
