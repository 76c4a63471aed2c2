//! How elements are read where the content of a paragraph is.
ghost use Rattle.std.specs.Prelude.{◌≡◌};
ghost use Rattle.load_model.specs.Blocks as blocks;
ghost use Rattle.load_model.specs.Fields as fields;
ghost use Rattle.load_model.specs.Left.{tag_of};
ghost use Rattle.load_model.specs.Met as met;
ghost use Rattle.load_model.specs.declared.names.Tag.TheVariants as tag;
ghost use Rattle.content_read.specs.Known.{IsKnown};
ghost use Rattle.content_read.specs.Roles.{is_alone, HasTag, IsRead};

use crate::known::Known;
use block_parts::{Reference, left_beside};
use doc_model::{Family, Spans};
use element_parts::LeftOut;
use load_model::{Element, Key, Tag};
use read_values::value_of;

/// The most spans round an item.
const MOST_SPANS: usize = 8;

/// How an element is read where the content of a paragraph is.
#[derive(Debug, Clone, Copy)]
pub enum Role<'a> {
    /// By itself: nothing in it is read as content.
    Alone,
    /// As a note.
    Note,
    /// It is passed: what it holds is read in its place, and this is left out.
    Passed(LeftOut),
    /// As a span of this style: what it holds is read in it, and this is left out.
    Span(&'a str, LeftOut),
}

/// How an element is read within these spans.
pub fn role_of<'a>(known: Known<'_>, spans: &Spans, element: &'a Element) -> Role<'a>
    ensures tag { HasTag result (tag_of element.now) }
    ensures read { (model : blocks.Known) → IsKnown known.entry model → (around : blocks.Around) → around.spans ≡ spans.now → IsRead result model element.now around }
{
    match element.tag {
        Tag::Span => span_role(known, spans, element),
        Tag::Note => Role::Note,
        _ => {
            if is_alone(element.tag) {
                Role::Alone
            } else {
                Role::Passed(LeftOut::elements(1))
            }
        }
    }
}

// How a span is read: one without a style that is there is passed, and so is a ninth within eight others.
fn span_role<'a>(known: Known<'_>, spans: &Spans, element: &'a Element) -> Role<'a>
    requires { tag_of element.now ≡ tag.Span }
    ensures tag { HasTag result (tag_of element.now) }
    ensures read { (model : blocks.Known) → IsKnown known.entry model → (around : blocks.Around) → around.spans ≡ spans.now → IsRead result model element.now around }
{
    let Some(text) = value_of(Key::StyleName, element.attributes.get()) else {
        return Role::Passed(LeftOut::nothing());
    };
    let Some(name) = known.names.style_reference(Family::Text, text) else {
        return Role::Passed(LeftOut::attributes(1));
    };
    if spans.get().len() >= MOST_SPANS {
        return Role::Passed(LeftOut::elements(1));
    }
    let left = left_beside(known.names, Reference::Style(Family::Text), &[], element);
    Role::Span(name, left)
}

// Whether an element of a tag is read by itself.
fn is_alone(tag: Tag) -> bool
    ensures { result ≡ is_alone tag }
{
    match tag {
        Tag::Spaces | Tag::Tab | Tag::LineBreak => true,
        Tag::Bookmark | Tag::BookmarkStart | Tag::BookmarkEnd => true,
        _ => is_field(tag) || is_dropped(tag),
    }
}

/// Whether an element of a tag is a field.
pub(crate) fn is_field(tag: Tag) -> bool
    ensures { result ≡ fields.is_field tag }
{
    match tag {
        Tag::Sequence | Tag::VariableSet | Tag::VariableGet => true,
        Tag::Chapter | Tag::PageNumber | Tag::PageCount => true,
        Tag::BookmarkReference | Tag::SequenceReference | Tag::NoteReference => true,
        _ => false,
    }
}

// Whether an element of a tag is dropped.
fn is_dropped(tag: Tag) -> bool
    ensures { result ≡ met.is_dropped tag }
{
    match tag {
        Tag::Document | Tag::CommonStyles | Tag::AutomaticStyles | Tag::MasterStyles => true,
        Tag::Body | Tag::Text | Tag::RubyText | Tag::Foreign => true,
        _ => false,
    }
}
