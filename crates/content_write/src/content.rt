//! The content of a paragraph, from front to back.

ghost use Rattle.std.specs.Prelude.{◌≡◌, ◌+◌, ◌<◌, ◌^◌, ◌++◌, length, chars, string_bytes, IfOk, OnOk, MatchOption, OnSome, IfSome};
ghost use Rattle.markup_nodes.specs.declared.tree.Elem.{Elem};
ghost use Rattle.markup_nodes.specs.Node.{Node};
ghost use Rattle.doc_model.specs.declared.paragraph.Note.{Note};
ghost use Rattle.tree_text.specs.Writing.{child_text, content_text};
ghost use Rattle.written_model.specs.Content as tree;
ghost use Rattle.content_write.specs.Rest as rest;
ghost use Rattle.content_write.specs.Rest.{all_left, left_text, no_note};
ghost use Rattle.content_write.specs.Content.{left_of};

use crate::items_left::ItemsLeft;
use crate::pieces::{is_word_behind, must_wait, push_bare, push_space, push_spaces, push_what};
use crate::spans::push_tags;
use doc_model::{Item, Name, Note, What};
use std::alloc::AllocError;

/// What is left to write of a paragraph's content. Its notes are written by the caller, so that their paragraphs may
/// stand anywhere.
#[derive(Debug, Drop)]
pub struct Content<'a> {
    /// The spans that are open.
    around: &'a [Name],
    /// Whether the last item, marks apart, is there and isn't a space.
    after_word: bool,
    /// The items.
    items: ItemsLeft<'a>,
}

impl<'a> Content<'a> {
    /// The content of a paragraph whose items lie in two pieces, one behind the other.
    pub fn new(first: &'a [Item], second: &'a [Item]) -> Content<'a>
        requires { length first.now + length second.now < 2 ^ 64 }
        ensures { left_of result ≡ all_left (first.now ++ second.now) }
    {
        Content {
            around: &[],
            after_word: false,
            items: ItemsLeft::new(first, second),
        }
    }

    /// Adds what is left before the next note, and answers the note, whose element is to be added next, with what is
    /// left behind it. Where no note is left it adds all.
    pub fn push_up_to_note(
        self,
        out: &mut String,
    ) -> Result<Option<(&'a Note, Content<'a>)>, AllocError>
        ensures written { (note_node : Note → Node Elem) → IfOk result (λ found. MatchOption found
            (chars (string_bytes out.new) ≡ chars (string_bytes out.old) ++ left_text note_node (left_of self.entry))
            (λ next. chars (string_bytes out.new) ++ (child_text (note_node next.0.now) ++ left_text note_node (left_of next.1)) ≡ chars (string_bytes out.old) ++ left_text note_node (left_of self.entry))) }
        ensures less { IfOk result (λ found. IfSome found (λ next. length (left_of next.1).items < length (left_of self.entry).items)) }
    {
        let Content {
            mut around,
            mut after_word,
            mut items,
        } = self;
        let mut waiting = 0;
        'items: while let Some(item) = items.take() {
            let spans = item.spans.get();
            if must_wait(item, after_word, &items) {
                waiting = push_space(out, around, waiting, spans)?;
                around = spans;
                after_word = false;
                continue;
            }
            push_spaces(out, waiting)?;
            push_tags(out, around, spans)?;
            waiting = 0;
            around = spans;
            after_word = is_word_behind(after_word, item);
            if let What::Note(note) = &item.what {
                let left = Content {
                    around,
                    after_word,
                    items,
                };
                return Ok(Some((note.get(), left)));
            }
            push_what(out, &item.what)?;
        }
        push_spaces(out, waiting)?;
        push_tags(out, around, &[])?;
        Ok(None)
    }
}

/// Adds the content of a paragraph that holds no notes: one that stands among the items is written as an empty element.
pub fn push_content(out: &mut String, first: &[Item], second: &[Item]) -> Result<(), AllocError>
    requires { length first.now + length second.now < 2 ^ 64 }
    ensures { OnOk result (chars (string_bytes out.new) ≡ chars (string_bytes out.old) ++ content_text (tree.content no_note (first.now ++ second.now))) }
{
    let mut content = Content::new(first, second);
    'notes: while let Some((_, left)) = content.push_up_to_note(out)? {
        push_bare(out, "text:note")?;
        content = left;
    }
    Ok(())
}
