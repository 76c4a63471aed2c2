//! The lists round a paragraph.

ghost use Rattle.std.specs.Prelude.{◌≡◌, ◌++◌, chars, string_bytes, codes, OnOk};
ghost use Rattle.written_model.specs.Blocks.{below};
ghost use Rattle.tree_text.specs.Writing.{tag_text};
ghost use Rattle.paragraph_write.specs.Around.{times, entry_name, list_attributes, list_start, list_end, before_paragraph, behind_paragraph};

use doc_model::ListPos;
use element_text::{push_end, push_name, push_tag_end};
use std::alloc::AllocError;
use value_write::{push_text, push_unless_empty, truth};

/// Adds a text as it stands.
pub fn push_plain(out: &mut String, text: &str) -> Result<(), AllocError>
    ensures { OnOk result (chars (string_bytes out.new) ≡ chars (string_bytes out.old) ++ chars text.now) }
{
    out.push_str(text)
}

/// Adds a text so many times.
fn push_times(out: &mut String, count: u8, text: &str) -> Result<(), AllocError>
    ensures { OnOk result (chars (string_bytes out.new) ≡ chars (string_bytes out.old) ++ times count (chars text.now)) }
{
    let mut left = count;
    'times: while left > 0 {
        push_plain(out, text)?;
        left -= 1;
    }
    Ok(())
}

/// How many lists stand in the outermost one.
fn below(level: u8) -> u8
    ensures { result ≡ below level }
{
    if level == 0 { 0 } else { level - 1 }
}

/// The element that holds a paragraph in the innermost list.
fn entry_name(item: bool) -> &'static str
    ensures { chars result.now ≡ entry_name item }
{
    if item {
        "text:list-item"
    } else {
        "text:list-header"
    }
}

/// Adds the tag of a paragraph's outermost list, which has the style and says whether it goes on counting.
fn push_outermost(out: &mut String, place: &ListPos) -> Result<(), AllocError>
    ensures { OnOk result (chars (string_bytes out.new) ≡ chars (string_bytes out.old) ++ (tag_text (codes "text:list") (list_attributes place.now) ++ codes ">")) }
{
    push_name(out, "text:list")?;
    push_unless_empty(out, "text:style-name", place.style.get())?;
    push_text(out, "text:continue-numbering", truth(!place.fresh))?;
    push_tag_end(out)
}

/// Adds what stands before a paragraph in its list.
fn push_list_start(out: &mut String, place: &ListPos) -> Result<(), AllocError>
    ensures { OnOk result (chars (string_bytes out.new) ≡ chars (string_bytes out.old) ++ list_start place.now) }
{
    push_outermost(out, place)?;
    push_times(out, below(place.level), "<text:list-item><text:list>")?;
    push_name(out, entry_name(place.item))?;
    push_tag_end(out)
}

/// Adds what stands behind a paragraph in its list.
fn push_list_end(out: &mut String, place: &ListPos) -> Result<(), AllocError>
    ensures { OnOk result (chars (string_bytes out.new) ≡ chars (string_bytes out.old) ++ list_end place.now) }
{
    push_end(out, entry_name(place.item))?;
    push_times(out, below(place.level), "</text:list></text:list-item>")?;
    push_end(out, "text:list")
}

/// Adds what stands before a paragraph that may stand in a list.
pub fn push_before(out: &mut String, list: &Option<ListPos>) -> Result<(), AllocError>
    ensures { OnOk result (chars (string_bytes out.new) ≡ chars (string_bytes out.old) ++ before_paragraph list.now) }
{
    match list {
        None => Ok(()),
        Some(place) => push_list_start(out, place),
    }
}

/// Adds what stands behind it.
pub fn push_behind(out: &mut String, list: &Option<ListPos>) -> Result<(), AllocError>
    ensures { OnOk result (chars (string_bytes out.new) ≡ chars (string_bytes out.old) ++ behind_paragraph list.now) }
{
    match list {
        None => Ok(()),
        Some(place) => push_list_end(out, place),
    }
}
