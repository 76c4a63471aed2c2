//! Paragraphs.

ghost use Rattle.std.specs.Prelude.{◌≡◌, ◌++◌, chars, string_bytes, OnOk};
ghost use Rattle.std.specs.List.{flat_map};
ghost use Rattle.spelling_model.specs.Spelling.{is_there};
ghost use Rattle.tree_text.specs.Writing.{attr_text, child_text};
ghost use Rattle.written_model.specs.Blocks.{paragraph};
ghost use Rattle.content_write.specs.Rest.{no_note};
ghost use Rattle.paragraph_write.specs.Around.{paragraph_name, level_attributes, paragraph_start, paragraph_end};

use crate::around::{push_close, push_tag_close};
use crate::lists::{push_before, push_behind};
use content_write::push_content;
use doc_model::{Item, ListPos, Par};
use element_text::push_name;
use std::alloc::AllocError;
use value_write::{push_number, push_unless_empty};

/// The element of a paragraph, or of a heading.
fn paragraph_name(level: u8) -> &'static str
    ensures { chars result.now ≡ paragraph_name level }
{
    if level == 0 { "text:p" } else { "text:h" }
}

/// Adds the level of a heading.
fn push_level(out: &mut String, level: u8) -> Result<(), AllocError>
    ensures { OnOk result (chars (string_bytes out.new) ≡ chars (string_bytes out.old) ++ flat_map attr_text (level_attributes level)) }
{
    if level == 0 {
        return Ok(());
    }
    push_number(out, "text:outline-level", level as u32)
}

/// Adds what stands before the content of a paragraph with this style, level and place in a list, which holds
/// something or nothing.
pub fn push_paragraph_start(
    out: &mut String,
    style: &str,
    level: u8,
    list: &Option<ListPos>,
    holds: bool,
) -> Result<(), AllocError>
    ensures { OnOk result (chars (string_bytes out.new) ≡ chars (string_bytes out.old) ++ paragraph_start (chars style.now) level list.now holds) }
{
    push_before(out, list)?;
    push_name(out, paragraph_name(level))?;
    push_unless_empty(out, "text:style-name", style)?;
    push_level(out, level)?;
    push_tag_close(out, holds)
}

/// Adds what stands behind it.
pub fn push_paragraph_end(
    out: &mut String,
    level: u8,
    list: &Option<ListPos>,
    holds: bool,
) -> Result<(), AllocError>
    ensures { OnOk result (chars (string_bytes out.new) ≡ chars (string_bytes out.old) ++ paragraph_end level list.now holds) }
{
    push_close(out, paragraph_name(level), holds)?;
    push_behind(out, list)
}

/// Whether there are items.
pub(crate) fn holds(items: &[Item]) -> bool
    ensures { result ≡ is_there items.now }
{
    !items.is_empty()
}

/// Adds a paragraph of a note, which holds no notes.
pub fn push_note_paragraph(out: &mut String, par: &Par) -> Result<(), AllocError>
    ensures { OnOk result (chars (string_bytes out.new) ≡ chars (string_bytes out.old) ++ child_text (paragraph no_note par.now)) }
{
    let items = par.items.as_slice();
    let some = holds(items);
    push_paragraph_start(out, par.style.get(), par.level, &par.list, some)?;
    push_content(out, items, &[])?;
    push_paragraph_end(out, par.level, &par.list, some)
}
