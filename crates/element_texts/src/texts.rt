//! The characters that stand directly in an element.
ghost use Rattle.std.specs.Prelude.{◌≡◌, ◌∷◌, ◌++◌, [], chars, string_bytes, if◌then◌else◌, IfOk, OnOk};
ghost use Rattle.load_model.specs.declared.element.Element.{out-Element};
ghost use Rattle.load_model.specs.Content.{is_white, spaced};
ghost use Rattle.element_texts.specs.Letters.{letters};

use doc_model::Txt;
use item_spaces::is_white;
use load_model::Element;
use std::alloc::{AllocError, Global};

/// The characters that stand directly in an element, with spaces for white space.
pub fn own_text(alloc: Global, element: &Element) -> Result<Txt, AllocError>
    ensures { IfOk result (λ text. text ≡ spaced (letters (out-Element element.now).nodes)) }
{
    let mut text = String::new(alloc);
    push_spaced(&mut text, element.nodes.first())?;
    for turn in element.nodes.turns() {
        push_spaced(&mut text, turn.after.get())?;
    }
    Ok(Txt::from_list(text))
}

// Adds a run of characters, with spaces for white space.
fn push_spaced(text: &mut String, run: &str) -> Result<(), AllocError>
    ensures { OnOk result (chars (string_bytes text.new) ≡ chars (string_bytes text.old) ++ spaced (chars run.now)) }
{
    for c in run.chars() {
        push_letter(text, space_for(c))?;
    }
    Ok(())
}

// Adds a character.
fn push_letter(text: &mut String, c: char) -> Result<(), AllocError>
    ensures { OnOk result (chars (string_bytes text.new) ≡ chars (string_bytes text.old) ++ c ∷ []) }
{
    text.push(c)
}

// A space for a character of white space.
fn space_for(c: char) -> char
    ensures { result ≡ (if is_white c then 0x20 else c) }
{
    if is_white(c) {
        return ' ';
    }
    c
}
