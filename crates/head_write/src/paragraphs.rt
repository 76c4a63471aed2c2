//! Paragraphs of headers and footers.

ghost use Rattle.std.specs.Prelude.{◌≡◌, ◌++◌, chars, string_bytes, codes, map, OnOk};
ghost use Rattle.sheet_write.specs.Held.{held_text};
ghost use Rattle.tree_text.specs.Writing.{child_text, content_text};
ghost use Rattle.written_model.specs.Content.{head_content};
ghost use Rattle.written_model.specs.Styles.{head_paragraph};

use crate::items::{push_spaces, push_what, waits, word_behind};
use doc_model::{HeadPar, What};
use element_text::{push_empty_end, push_end, push_name, push_tag_end};
use std::alloc::AllocError;

/// Adds the content of a paragraph of a header or footer. A space stands for itself only behind an item that isn't a space,
/// and before another item, where marks are of no account; each other one waits, and is written with those beside it as
/// one element.
#[tactic(auto, using(crate::proofs::ContentLemmas::content_written))]
pub fn push_head_content(out: &mut String, whats: &[What]) -> Result<(), AllocError>
    ensures { OnOk result (chars (string_bytes out.new) ≡ chars (string_bytes out.old) ++ content_text (head_content whats.now)) }
{
    let mut waiting = 0;
    let mut after_word = false;
    let mut left = whats;
    'items: while let [what, after @ ..] = left {
        left = after;
        if waits(what, after_word, after) {
            waiting += 1;
            after_word = false;
        } else {
            push_spaces(out, waiting)?;
            push_what(out, what)?;
            waiting = 0;
            after_word = word_behind(what, after_word);
        }
    }
    push_spaces(out, waiting)
}

/// Adds what stands behind the tag's name of a paragraph of a header or footer.
fn push_held_items(out: &mut String, whats: &[What]) -> Result<(), AllocError>
    ensures { OnOk result (chars (string_bytes out.new) ≡ chars (string_bytes out.old) ++ held_text (codes "text:p") (head_content whats.now)) }
{
    if whats.is_empty() {
        return push_empty_end(out);
    }
    push_tag_end(out)?;
    push_head_content(out, whats)?;
    push_end(out, "text:p")
}

/// Adds a paragraph of a header or footer.
fn push_head_paragraph(out: &mut String, par: &HeadPar) -> Result<(), AllocError>
    ensures { OnOk result (chars (string_bytes out.new) ≡ chars (string_bytes out.old) ++ child_text (head_paragraph par.now)) }
{
    push_name(out, "text:p")?;
    push_held_items(out, par.items.get())
}

/// Adds paragraphs of a header or footer.
pub(crate) fn push_head_paragraphs(out: &mut String, pars: &[HeadPar]) -> Result<(), AllocError>
    ensures { OnOk result (chars (string_bytes out.new) ≡ chars (string_bytes out.old) ++ content_text (map head_paragraph pars.now)) }
{
    let mut left = pars;
    'paragraphs: while let [par, after @ ..] = left {
        push_head_paragraph(out, par)?;
        left = after;
    }
    Ok(())
}
