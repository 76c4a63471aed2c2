//! The items of headers and footers, each as it stands.

ghost use Rattle.std.specs.Prelude.{◌≡◌, ◌++◌, [], ◌∷◌, chars, string_bytes, codes, decimal, OnOk};
ghost use Rattle.std.specs.List.{flat_map};
ghost use Rattle.head_write.specs.Items.{is_blank, is_marking, has_other, what_text, spaces_text, waits, word_behind};
ghost use Rattle.markup_tree.specs.Escapes.{text_escape};
ghost use Rattle.tree_text.specs.Writing.{attr_text, child_text};
ghost use Rattle.written_model.specs.Content.{mark_element};
ghost use Rattle.written_model.specs.Elements.{attribute, empty_element};

use doc_model::{Mark, What};
use element_text::{push_empty_end, push_name};
use field_write::push_field;
use std::alloc::AllocError;
use value_write::push_text;

/// Whether this is the character U+20.
fn is_blank(what: &What) -> bool
    ensures { result ≡ is_blank what.now }
{
    match what {
        What::Char(letter) => *letter == ' ',
        _ => false,
    }
}

/// Whether this is a mark.
fn is_marking(what: &What) -> bool
    ensures { result ≡ is_marking what.now }
{
    match what {
        What::Mark(_) => true,
        _ => false,
    }
}

/// Whether one of these is no mark.
fn has_other(whats: &[What]) -> bool
    ensures { result ≡ has_other whats.now }
{
    let mut left = whats;
    'marks: while let [what, after @ ..] = left {
        if !is_marking(what) {
            return true;
        }
        left = after;
    }
    false
}

/// Whether this is a space that can't stand for itself.
pub(crate) fn waits(what: &What, after_word: bool, after: &[What]) -> bool
    ensures { result ≡ waits after_word what.now after.now }
{
    is_blank(what) && !(after_word && has_other(after))
}

/// Whether the last item that is no mark is there and isn't a space, behind this.
pub(crate) fn word_behind(what: &What, after_word: bool) -> bool
    ensures { result ≡ word_behind after_word what.now }
{
    if is_marking(what) {
        return after_word;
    }
    !is_blank(what)
}

/// Adds a character with its escape.
fn push_character(out: &mut String, letter: char) -> Result<(), AllocError>
    ensures { OnOk result (chars (string_bytes out.new) ≡ chars (string_bytes out.old) ++ text_escape letter) }
{
    markup_tree::push_text(out, letter)
}

/// Adds an element without attributes that holds nothing.
fn push_bare(out: &mut String, name: &str) -> Result<(), AllocError>
    ensures { OnOk result (chars (string_bytes out.new) ≡ chars (string_bytes out.old) ++ child_text (empty_element (chars name.now) [])) }
{
    push_name(out, name)?;
    push_empty_end(out)
}

/// Adds an element that has a name and holds nothing.
fn push_named(out: &mut String, tag: &str, name: &str) -> Result<(), AllocError>
    ensures { OnOk result (chars (string_bytes out.new) ≡ chars (string_bytes out.old) ++ child_text (empty_element (chars tag.now) (attribute (codes "text:name") (chars name.now) ∷ []))) }
{
    push_name(out, tag)?;
    push_text(out, "text:name", name)?;
    push_empty_end(out)
}

/// Adds a mark.
fn push_mark(out: &mut String, mark: &Mark) -> Result<(), AllocError>
    ensures { OnOk result (chars (string_bytes out.new) ≡ chars (string_bytes out.old) ++ child_text (mark_element mark.now)) }
{
    match mark {
        Mark::Point(name) => push_named(out, "text:bookmark", name.get()),
        Mark::Start(name) => push_named(out, "text:bookmark-start", name.get()),
        Mark::End(name) => push_named(out, "text:bookmark-end", name.get()),
    }
}

/// Adds a tab.
fn push_tab(out: &mut String) -> Result<(), AllocError>
    ensures { OnOk result (chars (string_bytes out.new) ≡ chars (string_bytes out.old) ++ child_text (empty_element (codes "text:tab") [])) }
{
    push_bare(out, "text:tab")
}

/// Adds a line break.
fn push_break(out: &mut String) -> Result<(), AllocError>
    ensures { OnOk result (chars (string_bytes out.new) ≡ chars (string_bytes out.old) ++ child_text (empty_element (codes "text:line-break") [])) }
{
    push_bare(out, "text:line-break")
}

/// Adds a note without its paragraphs: none may stand in a header or footer.
fn push_no_note(out: &mut String) -> Result<(), AllocError>
    ensures { OnOk result (chars (string_bytes out.new) ≡ chars (string_bytes out.old) ++ child_text (empty_element (codes "text:note") [])) }
{
    push_bare(out, "text:note")
}

/// Adds an item as it stands.
pub(crate) fn push_what(out: &mut String, what: &What) -> Result<(), AllocError>
    ensures { OnOk result (chars (string_bytes out.new) ≡ chars (string_bytes out.old) ++ what_text what.now) }
{
    match what {
        What::Char(letter) => push_character(out, *letter),
        What::Tab => push_tab(out),
        What::Break => push_break(out),
        What::Field(field) => push_field(out, field.get()),
        What::Note(_) => push_no_note(out),
        What::Mark(mark) => push_mark(out, mark.get()),
    }
}

/// Adds how many spaces an element stands for.
fn push_count(out: &mut String, count: usize) -> Result<(), AllocError>
    ensures { OnOk result (chars (string_bytes out.new) ≡ chars (string_bytes out.old) ++ flat_map attr_text (attribute (codes "text:c") (decimal count) ∷ [])) }
{
    let text = count.to_string(*out.allocator())?;
    push_text(out, "text:c", text.as_str())
}

/// Adds an element for several spaces.
fn push_several(out: &mut String, count: usize) -> Result<(), AllocError>
    ensures { OnOk result (chars (string_bytes out.new) ≡ chars (string_bytes out.old) ++ child_text (empty_element (codes "text:s") (attribute (codes "text:c") (decimal count) ∷ []))) }
{
    push_name(out, "text:s")?;
    push_count(out, count)?;
    push_empty_end(out)
}

/// Adds so many spaces that can't stand for themselves.
pub(crate) fn push_spaces(out: &mut String, count: usize) -> Result<(), AllocError>
    ensures { OnOk result (chars (string_bytes out.new) ≡ chars (string_bytes out.old) ++ spaces_text count) }
{
    match count {
        0 => Ok(()),
        1 => push_bare(out, "text:s"),
        _ => push_several(out, count),
    }
}
