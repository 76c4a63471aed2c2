//! Notes.

ghost use Rattle.std.specs.Prelude.{◌≡◌, ◌++◌, [], ◌∷◌, chars, string_bytes, codes, map, OnOk};
ghost use Rattle.spelling_model.specs.Spelling.{is_there};
ghost use Rattle.tree_text.specs.Writing.{tag_text, child_text, content_text};
ghost use Rattle.written_model.specs.Elements.{attribute, unless_empty};
ghost use Rattle.written_model.specs.Values.{class_text};
ghost use Rattle.written_model.specs.Blocks.{note_element, paragraph};
ghost use Rattle.content_write.specs.Rest.{no_note};
ghost use Rattle.paragraph_write.specs.Around.{note_start, note_end};

use crate::around::{push_close, push_tag_close};
use crate::lists::push_plain;
use crate::paragraphs::push_note_paragraph;
use doc_model::{Note, NoteClass, Par};
use element_text::{push_name, push_tag_end};
use std::alloc::AllocError;
use value_write::{class_text, push_text, push_unless_empty};

/// Whether there are paragraphs.
fn holds(pars: &[Par]) -> bool
    ensures { result ≡ is_there pars.now }
{
    !pars.is_empty()
}

/// Adds the tag of a note.
fn push_note_tag(out: &mut String, id: &str, class: NoteClass) -> Result<(), AllocError>
    ensures { OnOk result (chars (string_bytes out.new) ≡ chars (string_bytes out.old) ++ (tag_text (codes "text:note") (unless_empty (codes "text:id") (chars id.now) ++ attribute (codes "text:note-class") (class_text class) ∷ []) ++ codes ">")) }
{
    push_name(out, "text:note")?;
    push_unless_empty(out, "text:id", id)?;
    push_text(out, "text:note-class", class_text(class))?;
    push_tag_end(out)
}

/// Adds what stands before the paragraphs of a note, of which it has some or none.
pub fn push_note_start(
    out: &mut String,
    id: &str,
    class: NoteClass,
    holds: bool,
) -> Result<(), AllocError>
    ensures { OnOk result (chars (string_bytes out.new) ≡ chars (string_bytes out.old) ++ note_start (chars id.now) class holds) }
{
    push_note_tag(out, id, class)?;
    push_plain(out, "<text:note-citation/><text:note-body")?;
    push_tag_close(out, holds)
}

/// Adds what stands behind them.
pub fn push_note_end(out: &mut String, holds: bool) -> Result<(), AllocError>
    ensures { OnOk result (chars (string_bytes out.new) ≡ chars (string_bytes out.old) ++ note_end holds) }
{
    push_close(out, "text:note-body", holds)?;
    push_plain(out, "</text:note>")
}

/// Adds the paragraphs of a note.
fn push_paragraphs(out: &mut String, pars: &[Par]) -> Result<(), AllocError>
    ensures { OnOk result (chars (string_bytes out.new) ≡ chars (string_bytes out.old) ++ content_text (map (paragraph no_note) pars.now)) }
{
    for par in pars {
        push_note_paragraph(out, par)?;
    }
    Ok(())
}

/// Adds a note.
pub fn push_note(out: &mut String, note: &Note) -> Result<(), AllocError>
    ensures { OnOk result (chars (string_bytes out.new) ≡ chars (string_bytes out.old) ++ child_text (note_element note.now)) }
{
    let pars = note.pars.as_slice();
    let some = holds(pars);
    push_note_start(out, note.id.get(), note.class, some)?;
    push_paragraphs(out, pars)?;
    push_note_end(out, some)
}
