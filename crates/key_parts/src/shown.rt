//! What the items of a paragraph show.

ghost use Rattle.std.specs.Prelude.{◌≡◌, ◌≤◌, ◌<◌, ◌+◌, ◌*◌, ◌^◌, ◌++◌, ◌∷◌, [], if◌then◌else◌, length, string_bytes, encode_utf8_all, OnOk, IfOk};
ghost use Rattle.std.specs.List.{AllByRecursion as Each};
ghost use Rattle.doc_model.specs.declared.paragraph.Item.{out-Item};
ghost use Rattle.key_parts.specs.Shows.{stated_display, is_shown_in, takes_text, is_note, next_text, texts_behind, texts_left, IsShort, characters, piece_of, pieces, text_of, citations};

use crate::parts::SpanDisplay;
use doc_model::{Item, Name, Txt, What};
use field_model::Shown;
use std::alloc::AllocError;

/// The text of a key that is being built, and the places of the citations in it.
#[derive(Drop)]
pub(crate) struct KeyText {
    pub(crate) text: String,
    pub(crate) notes: Vec<u32>,
}

/// Whether a text style states that it is shown, where it states that.
fn stated_display(displays: &[SpanDisplay], style: &Name) -> Option<bool>
    ensures { result ≡ stated_display displays.now style.now }
{
    let mut left = displays;
    'displays: while let [display, behind @ ..] = left {
        if display.style == *style {
            return Some(display.is_shown);
        }
        left = behind;
    }
    None
}

/// Whether an item is shown that stands in these spans, the outermost first: as the innermost one says that states it, else
/// as the paragraph does.
#[tactic(auto, using(crate::proofs::Displays::outermost))]
pub fn is_shown_in(displays: &[SpanDisplay], otherwise: bool, spans: &[Name]) -> bool
    ensures { result ≡ is_shown_in displays.now otherwise spans.now }
{
    let mut shown = otherwise;
    let mut left = spans;
    'spans: while let [span, inner @ ..] = left {
        shown = stated_display(displays, span).unwrap_or(shown);
        left = inner;
    }
    shown
}

/// Appends a text.
pub(crate) fn push_text(out: &mut String, text: &Txt) -> Result<(), AllocError>
    ensures { OnOk result (string_bytes out.new ≡ string_bytes out.old ++ encode_utf8_all text.now) }
{
    out.push_str(text.get())
}

/// Appends the next text that is handed in, if there is one.
fn push_next(out: &mut String, texts: &[Shown]) -> Result<(), AllocError>
    ensures { OnOk result (string_bytes out.new ≡ string_bytes out.old ++ encode_utf8_all (next_text texts.now)) }
{
    match texts {
        [next, ..] => push_text(out, &next.text),
        [] => Ok(()),
    }
}

/// Appends what an item shows.
fn push_item(out: &mut KeyText, item: &Item, texts: &[Shown]) -> Result<(), AllocError>
    requires { length (string_bytes out.old.text) < 2 ^ 32 }
    ensures text { OnOk result (string_bytes out.new.text ≡ string_bytes out.old.text ++ encode_utf8_all (characters item.now texts.now)) }
    ensures notes { OnOk result (out.new.notes.items ≡ out.old.notes.items ++ (if is_note item.now then length (string_bytes out.old.text) ∷ [] else [])) }
{
    match &item.what {
        What::Char(letter) => out.text.push(*letter),
        What::Tab => out.text.push('\t'),
        What::Break => out.text.push('\n'),
        What::Field(_) => push_next(&mut out.text, texts),
        What::Note(_) => {
            out.notes.push(out.text.len() as u32)?;
            push_next(&mut out.text, texts)
        }
        What::Mark(_) => Ok(()),
    }
}

/// The texts that are left behind an item.
fn texts_behind<'a>(item: &Item, texts: &'a [Shown]) -> &'a [Shown]
    ensures { result.now ≡ texts_behind item.now texts.now }
{
    match (&item.what, texts) {
        (What::Field(_), [_, behind @ ..]) => behind,
        (What::Note(_), [_, behind @ ..]) => behind,
        _ => texts,
    }
}

/// Appends what an item shows, if it is shown.
fn push_if_shown(
    out: &mut KeyText,
    displays: &[SpanDisplay],
    otherwise: bool,
    item: &Item,
    texts: &[Shown],
) -> Result<(), AllocError>
    requires { length (string_bytes out.old.text) < 2 ^ 32 }
    ensures text { OnOk result (string_bytes out.new.text ≡ string_bytes out.old.text ++ text_of (piece_of displays.now otherwise item.now texts.now)) }
    ensures notes { OnOk result (out.new.notes.items ≡ out.old.notes.items ++ citations (string_bytes out.old.text) (piece_of displays.now otherwise item.now texts.now)) }
{
    if is_shown_in(displays, otherwise, item.spans.get()) {
        return push_item(out, item, texts);
    }
    Ok(())
}

/// Appends what items show, and answers the texts that are left behind them.
pub(crate) fn push_items<'a>(
    out: &mut KeyText,
    displays: &[SpanDisplay],
    otherwise: bool,
    items: &[Item],
    texts: &'a [Shown],
) -> Result<&'a [Shown], AllocError>
    requires room { length (string_bytes out.old.text) + 2048 * length items.now < 2 ^ 32 }
    requires short { Each IsShort texts.now }
    ensures text { OnOk result (string_bytes out.new.text ≡ string_bytes out.old.text ++ text_of (pieces displays.now otherwise items.now texts.now)) }
    ensures notes { OnOk result (out.new.notes.items ≡ out.old.notes.items ++ citations (string_bytes out.old.text) (pieces displays.now otherwise items.now texts.now)) }
    ensures behind { IfOk result (λ behind. behind.now ≡ texts_left items.now texts.now) }
{
    let mut left = items;
    let mut next = texts;
    'items: while let [item, behind @ ..] = left {
        push_if_shown(out, displays, otherwise, item, next)?;
        next = texts_behind(item, next);
        left = behind;
    }
    Ok(next)
}
