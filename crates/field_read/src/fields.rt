//! Fields by what their elements are.
ghost use Rattle.std.specs.Prelude.{◌≡◌, [], true, Some, IfOk};
ghost use Rattle.load_model.specs.declared.names.Tag.TheVariants as tag;
ghost use Rattle.load_model.specs.Fields as fields;

use crate::names::{name_stated, reference_stated, target_stated};
use crate::settings::{
    adjust_stated, class_stated, form_stated, format_stated, level_stated, select_stated,
    sequence_form_stated, show_stated,
};
use doc_model::{Field, Txt};
use load_model::{Attribute, Tag};
use std::alloc::{AllocError, Global};

/// The field that an element is, if it is one and has the name that it needs: by its attributes, by its text, which alone
/// the value of a variable takes, and by whether it is the first of its reference name.
pub fn field_of(
    alloc: Global,
    which: Tag,
    is_first: bool,
    text: Txt,
    attributes: &[Attribute],
) -> Result<Option<Field>, AllocError>
    ensures { IfOk result (λ field. field ≡ fields.field_of which is_first text attributes.now) }
{
    match which {
        Tag::Sequence => sequence(alloc, is_first, attributes),
        Tag::VariableSet => variable_set(alloc, text, attributes),
        Tag::VariableGet => variable_get(alloc, attributes),
        Tag::Chapter => Ok(Some(chapter(attributes))),
        Tag::PageNumber => Ok(Some(page_number(attributes))),
        Tag::PageCount => Ok(Some(Field::PageCount {
            format: format_stated(attributes),
        })),
        Tag::BookmarkReference => Ok(Some(bookmark_reference(alloc, attributes)?)),
        Tag::SequenceReference => Ok(Some(sequence_reference(alloc, attributes)?)),
        Tag::NoteReference => Ok(Some(note_reference(alloc, attributes)?)),
        _ => Ok(None),
    }
}

// A sequence field, if it has a name.
fn sequence(
    alloc: Global,
    is_first: bool,
    attributes: &[Attribute],
) -> Result<Option<Field>, AllocError>
    ensures { IfOk result (λ field. field ≡ fields.field_of tag.Sequence is_first [] attributes.now) }
{
    match name_stated(alloc, attributes)? {
        Some(name) => Ok(Some(Field::Sequence {
            name,
            refname: reference_stated(alloc, is_first, attributes)?,
            format: format_stated(attributes),
        })),
        None => Ok(None),
    }
}

// A field that sets a variable, if it has a name.
fn variable_set(
    alloc: Global,
    text: Txt,
    attributes: &[Attribute],
) -> Result<Option<Field>, AllocError>
    ensures { IfOk result (λ field. field ≡ fields.field_of tag.VariableSet true text attributes.now) }
{
    match name_stated(alloc, attributes)? {
        Some(name) => Ok(Some(Field::VarSet { name, value: text })),
        None => Ok(None),
    }
}

// A field that shows a variable, if it has a name.
fn variable_get(alloc: Global, attributes: &[Attribute]) -> Result<Option<Field>, AllocError>
    ensures { IfOk result (λ field. field ≡ fields.field_of tag.VariableGet true [] attributes.now) }
{
    match name_stated(alloc, attributes)? {
        Some(name) => Ok(Some(Field::VarGet { name })),
        None => Ok(None),
    }
}

// A chapter field.
fn chapter(attributes: &[Attribute]) -> Field
    ensures { Some result ≡ fields.field_of tag.Chapter true [] attributes.now }
{
    Field::Chapter {
        display: show_stated(attributes),
        level: level_stated(attributes),
    }
}

// A page number.
fn page_number(attributes: &[Attribute]) -> Field
    ensures { Some result ≡ fields.field_of tag.PageNumber true [] attributes.now }
{
    Field::PageNumber {
        select: select_stated(attributes),
        adjust: adjust_stated(attributes),
        format: format_stated(attributes),
    }
}

// A reference to a bookmark.
fn bookmark_reference(alloc: Global, attributes: &[Attribute]) -> Result<Field, AllocError>
    ensures { IfOk result (λ field. Some field ≡ fields.field_of tag.BookmarkReference true [] attributes.now) }
{
    Ok(Field::BookRef {
        name: target_stated(alloc, attributes)?,
        form: form_stated(attributes),
    })
}

// A reference to a sequence field.
fn sequence_reference(alloc: Global, attributes: &[Attribute]) -> Result<Field, AllocError>
    ensures { IfOk result (λ field. Some field ≡ fields.field_of tag.SequenceReference true [] attributes.now) }
{
    Ok(Field::SeqRef {
        name: target_stated(alloc, attributes)?,
        form: sequence_form_stated(attributes),
    })
}

// A reference to a note.
fn note_reference(alloc: Global, attributes: &[Attribute]) -> Result<Field, AllocError>
    ensures { IfOk result (λ field. Some field ≡ fields.field_of tag.NoteReference true [] attributes.now) }
{
    Ok(Field::NoteRef {
        name: target_stated(alloc, attributes)?,
        class: class_stated(attributes),
        form: form_stated(attributes),
    })
}
