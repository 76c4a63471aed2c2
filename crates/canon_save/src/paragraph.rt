//! A paragraph with its items.

ghost use Rattle.std.specs.Prelude.{◌≡◌, ◌++◌, ◌&&◌, not, string_bytes, OnOk};
ghost use Rattle.std.specs.List.{AllByRecursion as Each};
ghost use Rattle.spelling_model.specs.Spelling.{paragraph_bytes, content_bytes, is_space, item_bytes, escaped, spaces, is_there, IsWrittenItem, IsWrittenPar};

use doc_model::{Item, Par, What};
use spelling_model::{EMPTY_PARAGRAPH, PARAGRAPH, PARAGRAPH_END, SPACE, SPACES, SPACES_END};
use std::alloc::AllocError;

/// Appends a paragraph.
#[tactic(auto, unfolding(spelling_model::specs::Spelling::empty_paragraph, spelling_model::specs::Spelling::paragraph_start, spelling_model::specs::Spelling::paragraph_end))]
pub(crate) fn push_paragraph(out: &mut String, par: &Par) -> Result<(), AllocError>
    requires { IsWrittenPar par.now }
    ensures { OnOk result (string_bytes out.new ≡ string_bytes out.old ++ paragraph_bytes par.now) }
{
    match par.items.as_slice() {
        [] => out.push_str(EMPTY_PARAGRAPH),
        items => {
            out.push_str(PARAGRAPH)?;
            push_items(out, items)?;
            out.push_str(PARAGRAPH_END)
        }
    }
}

/// Appends the items of a paragraph. A space stands for itself only behind an item that isn't a space, and before
/// another item; each other one waits, and is written with those beside it as one element.
#[tactic(auto, using(spelling_model::proofs::Content::content_written))]
fn push_items(out: &mut String, items: &[Item]) -> Result<(), AllocError>
    requires { Each IsWrittenItem items.now }
    ensures { OnOk result (string_bytes out.new ≡ string_bytes out.old ++ content_bytes items.now) }
{
    let mut waiting = 0;
    let mut after_word = false;
    let mut left = items;
    'items: while let [item, after @ ..] = left {
        left = after;
        if waits(item, after_word, after) {
            waiting += 1;
            after_word = false;
        } else {
            push_spaces(out, waiting)?;
            push_item(out, item)?;
            waiting = 0;
            after_word = !is_space(item);
        }
    }
    push_spaces(out, waiting)
}

/// Whether an item is a space that can't stand for itself.
fn waits(item: &Item, after_word: bool, after: &[Item]) -> bool
    ensures { result ≡ (is_space item.now && not (after_word && is_there after.now)) }
{
    is_space(item) && !(after_word && !after.is_empty())
}

fn is_space(item: &Item) -> bool
    ensures { result ≡ is_space item.now }
{
    match &item.what {
        What::Char(letter) => *letter == ' ',
        _ => false,
    }
}

/// Appends a character as it stands. Other items aren't written yet.
fn push_item(out: &mut String, item: &Item) -> Result<(), AllocError>
    ensures { OnOk result (string_bytes out.new ≡ string_bytes out.old ++ item_bytes item.now) }
{
    match &item.what {
        What::Char(letter) => push_escaped(out, *letter),
        _ => Ok(()),
    }
}

#[tactic(auto, unfolding(spelling_model::specs::Spelling::escaped))]
fn push_escaped(out: &mut String, letter: char) -> Result<(), AllocError>
    ensures { OnOk result (string_bytes out.new ≡ string_bytes out.old ++ escaped letter) }
{
    match letter {
        '&' => out.push_str("&amp;"),
        '<' => out.push_str("&lt;"),
        '>' => out.push_str("&gt;"),
        _ => out.push(letter),
    }
}

/// Appends so many spaces that can't stand for themselves.
#[tactic(auto, unfolding(spelling_model::specs::Spelling::spaces))]
fn push_spaces(out: &mut String, count: usize) -> Result<(), AllocError>
    ensures { OnOk result (string_bytes out.new ≡ string_bytes out.old ++ spaces count) }
{
    match count {
        0 => Ok(()),
        1 => out.push_str(SPACE),
        _ => write!(out, "{SPACES}{count}{SPACES_END}"),
    }
}
