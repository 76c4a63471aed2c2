//! The kinds of fields, each by its attributes.

ghost use Rattle.std.specs.Prelude.{◌≡◌, ◌++◌, [], ◌∷◌, chars, string_bytes, codes, decimal, OnOk};
ghost use Rattle.std.specs.List.{flat_map};
ghost use Rattle.field_write.specs.Held.{held_text};
ghost use Rattle.tree_text.specs.Writing.{attr_text, child_text};
ghost use Rattle.written_model.specs.Elements.{attribute, unless_empty, element, empty_element, characters};
ghost use Rattle.written_model.specs.Values as named;
ghost use Rattle.written_model.specs.Fields.{format_attribute};

use doc_model::{ChapterShow, Format, NoteClass, PageAdjust, RefForm, Select, SeqForm};
use element_text::{push_empty_end, push_end, push_name, push_run, push_tag_end};
use markup_parts::is_nothing;
use std::alloc::AllocError;
use value_write::{
    chapter_text, class_text, format_text, push_number, push_text, push_unless_empty, push_whole,
    reference_text, select_text, sequence_text,
};

/// A field that counts.
pub fn push_sequence(
    out: &mut String,
    name: &str,
    refname: &str,
    format: Format,
) -> Result<(), AllocError>
    ensures { OnOk result (chars (string_bytes out.new) ≡ chars (string_bytes out.old)
        ++ child_text (empty_element (codes "text:sequence") (attribute (codes "text:name") (chars name.now) ∷ unless_empty (codes "text:ref-name") (chars refname.now) ++ format_attribute format ∷ []))) }
{
    push_name(out, "text:sequence")?;
    push_text(out, "text:name", name)?;
    push_unless_empty(out, "text:ref-name", refname)?;
    push_format(out, format)?;
    push_empty_end(out)
}

/// The format of a field.
fn push_format(out: &mut String, format: Format) -> Result<(), AllocError>
    ensures { OnOk result (chars (string_bytes out.new) ≡ chars (string_bytes out.old) ++ flat_map attr_text (format_attribute format ∷ [])) }
{
    push_text(out, "style:num-format", format_text(format))
}

/// A field that sets a variable, with the value in it.
pub fn push_variable_set(out: &mut String, name: &str, value: &str) -> Result<(), AllocError>
    ensures { OnOk result (chars (string_bytes out.new) ≡ chars (string_bytes out.old)
        ++ child_text (element (codes "text:variable-set") (attribute (codes "text:name") (chars name.now) ∷ []) (characters (chars value.now)))) }
{
    push_name(out, "text:variable-set")?;
    push_text(out, "text:name", name)?;
    push_held(out, "text:variable-set", value)
}

/// What a tag ends with, and behind it a text and the end of the element, where the text isn't empty.
fn push_held(out: &mut String, name: &str, text: &str) -> Result<(), AllocError>
    ensures { OnOk result (chars (string_bytes out.new) ≡ chars (string_bytes out.old) ++ held_text (chars name.now) (chars text.now)) }
{
    if is_nothing(text) {
        return push_empty_end(out);
    }
    push_tag_end(out)?;
    push_run(out, text)?;
    push_end(out, name)
}

/// A field that shows a variable.
pub fn push_variable_get(out: &mut String, name: &str) -> Result<(), AllocError>
    ensures { OnOk result (chars (string_bytes out.new) ≡ chars (string_bytes out.old)
        ++ child_text (empty_element (codes "text:variable-get") (attribute (codes "text:name") (chars name.now) ∷ []))) }
{
    push_name(out, "text:variable-get")?;
    push_text(out, "text:name", name)?;
    push_empty_end(out)
}

/// A chapter field.
pub fn push_chapter(out: &mut String, show: ChapterShow, level: u8) -> Result<(), AllocError>
    ensures { OnOk result (chars (string_bytes out.new) ≡ chars (string_bytes out.old)
        ++ child_text (empty_element (codes "text:chapter") (attribute (codes "text:display") (named.chapter_text show) ∷ attribute (codes "text:outline-level") (decimal level) ∷ []))) }
{
    push_name(out, "text:chapter")?;
    push_text(out, "text:display", chapter_text(show))?;
    push_number(out, "text:outline-level", level as u32)?;
    push_empty_end(out)
}

/// The number of a page.
pub fn push_page_number(
    out: &mut String,
    select: Select,
    adjust: PageAdjust,
    format: Format,
) -> Result<(), AllocError>
    ensures { OnOk result (chars (string_bytes out.new) ≡ chars (string_bytes out.old)
        ++ child_text (empty_element (codes "text:page-number") (attribute (codes "text:select-page") (named.select_text select) ∷ attribute (codes "text:page-adjust") (named.whole_text adjust) ∷ format_attribute format ∷ []))) }
{
    push_name(out, "text:page-number")?;
    push_text(out, "text:select-page", select_text(select))?;
    push_whole(out, "text:page-adjust", adjust.pages())?;
    push_format(out, format)?;
    push_empty_end(out)
}

/// The count of pages.
pub fn push_page_count(out: &mut String, format: Format) -> Result<(), AllocError>
    ensures { OnOk result (chars (string_bytes out.new) ≡ chars (string_bytes out.old)
        ++ child_text (empty_element (codes "text:page-count") (format_attribute format ∷ []))) }
{
    push_name(out, "text:page-count")?;
    push_format(out, format)?;
    push_empty_end(out)
}

/// A reference to a bookmark.
pub fn push_bookmark_reference(
    out: &mut String,
    name: &str,
    form: RefForm,
) -> Result<(), AllocError>
    ensures { OnOk result (chars (string_bytes out.new) ≡ chars (string_bytes out.old)
        ++ child_text (empty_element (codes "text:bookmark-ref") (unless_empty (codes "text:ref-name") (chars name.now) ++ attribute (codes "text:reference-format") (named.reference_text form) ∷ []))) }
{
    push_name(out, "text:bookmark-ref")?;
    push_unless_empty(out, "text:ref-name", name)?;
    push_text(out, "text:reference-format", reference_text(form))?;
    push_empty_end(out)
}

/// A reference to a sequence field.
pub fn push_sequence_reference(
    out: &mut String,
    name: &str,
    form: SeqForm,
) -> Result<(), AllocError>
    ensures { OnOk result (chars (string_bytes out.new) ≡ chars (string_bytes out.old)
        ++ child_text (empty_element (codes "text:sequence-ref") (unless_empty (codes "text:ref-name") (chars name.now) ++ attribute (codes "text:reference-format") (named.sequence_text form) ∷ []))) }
{
    push_name(out, "text:sequence-ref")?;
    push_unless_empty(out, "text:ref-name", name)?;
    push_text(out, "text:reference-format", sequence_text(form))?;
    push_empty_end(out)
}

/// A reference to a note.
pub fn push_note_reference(
    out: &mut String,
    name: &str,
    class: NoteClass,
    form: RefForm,
) -> Result<(), AllocError>
    ensures { OnOk result (chars (string_bytes out.new) ≡ chars (string_bytes out.old)
        ++ child_text (empty_element (codes "text:note-ref")
        (unless_empty (codes "text:ref-name") (chars name.now) ++ attribute (codes "text:reference-format") (named.reference_text form) ∷ attribute (codes "text:note-class") (named.class_text class) ∷ []))) }
{
    push_name(out, "text:note-ref")?;
    push_unless_empty(out, "text:ref-name", name)?;
    push_text(out, "text:reference-format", reference_text(form))?;
    push_text(out, "text:note-class", class_text(class))?;
    push_empty_end(out)
}
