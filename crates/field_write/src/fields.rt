//! A field by its kind.

ghost use Rattle.std.specs.Prelude.{◌≡◌, ◌++◌, chars, string_bytes, OnOk};
ghost use Rattle.tree_text.specs.Writing.{child_text};
ghost use Rattle.written_model.specs.Fields.{field_element};

use crate::kinds::{
    push_bookmark_reference, push_chapter, push_note_reference, push_page_count, push_page_number,
    push_sequence, push_sequence_reference, push_variable_get, push_variable_set,
};
use doc_model::Field;
use std::alloc::AllocError;

/// Adds a field. Only one that sets a variable holds something: the value.
pub fn push_field(out: &mut String, field: &Field) -> Result<(), AllocError>
    ensures { OnOk result (chars (string_bytes out.new) ≡ chars (string_bytes out.old) ++ child_text (field_element field.now)) }
{
    match field {
        Field::Sequence {
            name,
            refname,
            format,
        } => push_sequence(out, name.get(), refname.get(), *format),
        Field::VarSet { name, value } => push_variable_set(out, name.get(), value.get()),
        Field::VarGet { name } => push_variable_get(out, name.get()),
        Field::Chapter { display, level } => push_chapter(out, *display, *level),
        Field::PageNumber {
            select,
            adjust,
            format,
        } => push_page_number(out, *select, *adjust, *format),
        Field::PageCount { format } => push_page_count(out, *format),
        Field::BookRef { name, form } => push_bookmark_reference(out, name.get(), *form),
        Field::SeqRef { name, form } => push_sequence_reference(out, name.get(), *form),
        Field::NoteRef { name, class, form } => {
            push_note_reference(out, name.get(), *class, *form)
        }
    }
}
