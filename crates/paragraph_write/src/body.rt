//! Paragraphs of the body, with their notes.

ghost use Rattle.std.specs.Prelude.{◌≡◌, ◌++◌, chars, string_bytes, OnOk};
ghost use Rattle.tree_text.specs.Writing.{child_text, content_text};
ghost use Rattle.written_model.specs.Content as tree;
ghost use Rattle.written_model.specs.Blocks.{note_element, paragraph};

use crate::notes::push_note;
use crate::paragraphs::{holds, push_paragraph_end, push_paragraph_start};
use content_write::Content;
use doc_model::{Item, Par};
use std::alloc::AllocError;

/// Adds the content of a paragraph of the body, with its notes.
fn push_body_content(out: &mut String, items: &[Item]) -> Result<(), AllocError>
    ensures { OnOk result (chars (string_bytes out.new) ≡ chars (string_bytes out.old) ++ content_text (tree.content note_element items.now)) }
{
    let mut content = Content::new(items, &[]);
    'notes: while let Some((note, left)) = content.push_up_to_note(out)? {
        push_note(out, note)?;
        content = left;
    }
    Ok(())
}

/// Adds a paragraph of the body.
pub fn push_paragraph(out: &mut String, par: &Par) -> Result<(), AllocError>
    ensures { OnOk result (chars (string_bytes out.new) ≡ chars (string_bytes out.old) ++ child_text (paragraph note_element par.now)) }
{
    let items = par.items.as_slice();
    let some = holds(items);
    push_paragraph_start(out, par.style.get(), par.level, &par.list, some)?;
    push_body_content(out, items)?;
    push_paragraph_end(out, par.level, &par.list, some)
}
