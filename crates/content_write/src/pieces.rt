//! Spaces, marks and items.

ghost use Rattle.std.specs.Prelude.{◌≡◌, ◌+◌, ◌<◌, ◌^◌, ◌++◌, [], ◌∷◌, chars, string_bytes, decimal, OnOk, IfOk};
ghost use Rattle.std.specs.List.{flat_map};
ghost use Rattle.doc_model.specs.declared.paragraph.What.{out-What};
ghost use Rattle.spelling_model.specs.Spelling as spelling;
ghost use Rattle.tree_text.specs.Writing.{attr_text, child_text};
ghost use Rattle.written_model.specs.Elements.{attribute, empty_element};
ghost use Rattle.written_model.specs.Content.{mark_element, what_node};
ghost use Rattle.content_write.specs.Rest as rest;
ghost use Rattle.content_write.specs.Rest.{spaces_text, tags_before, count_behind, no_note};

use crate::items_left::{ItemsLeft, is_mark};
use crate::spans::push_tags;
use doc_model::{Item, Mark, Name, What};
use element_text::{push_empty_end, push_name};
use field_write::push_field;
use markup_tree::push_text as push_text_char;
use std::alloc::AllocError;
use value_write::push_text;

/// Adds an attribute with a count.
fn push_count(out: &mut String, name: &str, count: usize) -> Result<(), AllocError>
    ensures { OnOk result (chars (string_bytes out.new) ≡ chars (string_bytes out.old) ++ flat_map attr_text (attribute (chars name.now) (decimal count) ∷ [])) }
{
    let text = count.to_string(*out.allocator())?;
    push_text(out, name, text.as_str())
}

/// Adds an element that has an attribute and holds nothing.
fn push_with(out: &mut String, tag: &str, name: &str, value: &str) -> Result<(), AllocError>
    ensures { OnOk result (chars (string_bytes out.new) ≡ chars (string_bytes out.old) ++ child_text (empty_element (chars tag.now) (attribute (chars name.now) (chars value.now) ∷ []))) }
{
    push_name(out, tag)?;
    push_text(out, name, value)?;
    push_empty_end(out)
}

/// Adds an element without attributes that holds nothing.
pub fn push_bare(out: &mut String, tag: &str) -> Result<(), AllocError>
    ensures { OnOk result (chars (string_bytes out.new) ≡ chars (string_bytes out.old) ++ child_text (empty_element (chars tag.now) [])) }
{
    push_name(out, tag)?;
    push_empty_end(out)
}

/// Adds so many spaces that can't stand for themselves.
pub fn push_spaces(out: &mut String, count: usize) -> Result<(), AllocError>
    ensures { OnOk result (chars (string_bytes out.new) ≡ chars (string_bytes out.old) ++ spaces_text count) }
{
    if count == 0 {
        return Ok(());
    }
    if count == 1 {
        return push_bare(out, "text:s");
    }
    push_name(out, "text:s")?;
    push_count(out, "text:c", count)?;
    push_empty_end(out)
}

/// Adds a mark of a bookmark.
pub fn push_mark(out: &mut String, mark: &Mark) -> Result<(), AllocError>
    ensures { OnOk result (chars (string_bytes out.new) ≡ chars (string_bytes out.old) ++ child_text (mark_element mark.now)) }
{
    match mark {
        Mark::Point(name) => push_with(out, "text:bookmark", "text:name", name.get()),
        Mark::Start(name) => push_with(out, "text:bookmark-start", "text:name", name.get()),
        Mark::End(name) => push_with(out, "text:bookmark-end", "text:name", name.get()),
    }
}

/// Adds what stands before a space that waits, unless it joins those that wait, and answers how many wait then.
pub fn push_space(
    out: &mut String,
    around: &[Name],
    waiting: usize,
    spans: &[Name],
) -> Result<usize, AllocError>
    requires { waiting + 1 < 2 ^ 64 }
    ensures count { IfOk result (λ count. count ≡ count_behind around.now waiting spans.now) }
    ensures written { OnOk result (chars (string_bytes out.new) ≡ chars (string_bytes out.old) ++ tags_before around.now waiting spans.now) }
{
    if joins(around, waiting, spans) {
        return Ok(waiting + 1);
    }
    push_spaces(out, waiting)?;
    push_tags(out, around, spans)?;
    Ok(1)
}

/// Whether a space in these spans joins those that wait.
fn joins(around: &[Name], waiting: usize, spans: &[Name]) -> bool
    ensures { result ≡ rest.joins around.now waiting spans.now }
{
    waiting > 0 && around == spans
}

/// Adds what an item is. A note is written as one that holds nothing.
pub fn push_what(out: &mut String, what: &What) -> Result<(), AllocError>
    ensures { OnOk result (chars (string_bytes out.new) ≡ chars (string_bytes out.old) ++ child_text (what_node no_note (out-What what.now))) }
{
    match what {
        What::Char(c) => push_text_char(out, *c),
        What::Tab => push_bare(out, "text:tab"),
        What::Break => push_bare(out, "text:line-break"),
        What::Field(field) => push_field(out, field.get()),
        What::Note(_) => push_bare(out, "text:note"),
        What::Mark(mark) => push_mark(out, mark.get()),
    }
}

/// Whether an item is a space.
fn is_space(item: &Item) -> bool
    ensures { result ≡ spelling.is_space item.now }
{
    match &item.what {
        What::Char(c) => *c == ' ',
        _ => false,
    }
}

/// Whether an item before these is a space that can't stand for itself.
pub fn must_wait(item: &Item, after_word: bool, behind: &ItemsLeft<'_>) -> bool
    ensures { result ≡ rest.must_wait after_word item.now behind.now }
{
    is_space(item) && !(after_word && behind.has_more())
}

/// Whether the last item, marks apart, is there and isn't a space, behind one more item.
pub fn is_word_behind(after_word: bool, item: &Item) -> bool
    ensures { result ≡ rest.is_word_behind after_word item.now }
{
    if is_mark(item) {
        return after_word;
    }
    !is_space(item)
}
