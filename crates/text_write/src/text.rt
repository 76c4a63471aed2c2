//! The element of the text.

ghost use Rattle.std.specs.Prelude.{◌≡◌, ◌++◌, chars, string_bytes, codes, OnOk};
ghost use Rattle.std.specs.List.{flat_map};
ghost use Rattle.tree_text.specs.Writing.{attr_text, child_text, content_text};
ghost use Rattle.written_model.specs.Elements.{where_true};
ghost use Rattle.written_model.specs.Written.{text_element};
ghost use Rattle.text_write.specs.Held.{held, holds_something, text_start};

use block_write::{push_blocks, push_sequences, push_variables};
use doc_model::Document;
use element_text::push_name;
use paragraph_write::{push_close, push_tag_close};
use std::alloc::AllocError;
use value_write::push_text;

/// Adds whether a document is a master document.
fn push_global(out: &mut String, global: bool) -> Result<(), AllocError>
    ensures { OnOk result (chars (string_bytes out.new) ≡ chars (string_bytes out.old) ++ flat_map attr_text (where_true (codes "text:global") (codes "true") global)) }
{
    if global {
        return push_text(out, "text:global", "true");
    }
    Ok(())
}

/// Adds the tag of the text, which holds something or nothing.
fn push_start(out: &mut String, global: bool, holds: bool) -> Result<(), AllocError>
    ensures { OnOk result (chars (string_bytes out.new) ≡ chars (string_bytes out.old) ++ text_start global holds) }
{
    push_name(out, "office:text")?;
    push_global(out, global)?;
    push_tag_close(out, holds)
}

/// Whether a document has declarations or blocks.
fn holds(doc: &Document) -> bool
    ensures { result ≡ holds_something doc.now }
{
    !doc.variables.get().is_empty() || !doc.sequences.get().is_empty() || !doc.body.get().is_empty()
}

/// Adds the declarations and the blocks.
fn push_held(out: &mut String, doc: &Document) -> Result<(), AllocError>
    ensures { OnOk result (chars (string_bytes out.new) ≡ chars (string_bytes out.old) ++ content_text (held doc.now)) }
{
    push_variables(out, doc.variables.get())?;
    push_sequences(out, doc.sequences.get())?;
    push_blocks(out, doc.body.get())
}

/// Adds the text of a document.
pub fn push_text_element(out: &mut String, doc: &Document) -> Result<(), AllocError>
    ensures { OnOk result (chars (string_bytes out.new) ≡ chars (string_bytes out.old) ++ child_text (text_element doc.now)) }
{
    let some = holds(doc);
    push_start(out, doc.global, some)?;
    push_held(out, doc)?;
    push_close(out, "office:text", some)
}
