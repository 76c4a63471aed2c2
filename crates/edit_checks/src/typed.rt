//! Characters that edits may not bring.

ghost use Rattle.std.specs.Prelude.{◌≡◌, ◌<◌, ◌^◌, IfSome, length, not, position, chars};
ghost use Rattle.std.specs.List.{AllByRecursion as Each};
ghost use Rattle.doc_model.specs.Chars.{can_be_typed};
ghost use Rattle.edit_checks.specs.Typed.{first_failing, is_printed, refused_at};
ghost use Rattle.edit_rules.specs.Names.{texts_of};
ghost use Rattle.edit_rules.specs.Refusals.{bad_char};

use doc_model::{EditOp, Field, Name, Refusal, Txt};

/// The refusal by the first character of the edit's text or new name that it may not bring. It takes no memory.
pub fn bad_char(op: &EditOp) -> Option<Refusal>
    requires short { Each (λ text. length text < 2 ^ 32) (texts_of op.now) }
    ensures { result ≡ bad_char op.now }
{
    match op {
        EditOp::InsertText { text, .. } => not_typed(text),
        EditOp::InsertField { field, .. } => match field {
            Field::Sequence { refname, .. } => not_printed_name(refname),
            Field::VarSet { value, .. } => not_printed(value),
            Field::BookRef { name, .. } => not_printed_name(name),
            Field::SeqRef { name, .. } => not_printed_name(name),
            Field::NoteRef { name, .. } => not_printed_name(name),
            _ => None,
        },
        EditOp::InsertNote { id, .. } => not_printed_name(id),
        EditOp::AddBookmark { name, .. } => not_printed_name(name),
        EditOp::WrapSection { name, .. } => not_printed_name(name),
        EditOp::DefineStyle { style } => not_printed_name(&style.name),
        EditOp::AddDecl { name, .. } => not_printed_name(name),
        _ => None,
    }
}

// The refusal by the first character of a text that can't be typed.
fn not_typed(text: &Txt) -> Option<Refusal>
    requires short { length text.now < 2 ^ 32 }
    ensures { result ≡ first_failing can_be_typed text.now }
{
    refused_at(first_untyped(text.get()))
}

// The refusal by the first character of a text that can't be typed or is a tab or a line feed.
fn not_printed(text: &Txt) -> Option<Refusal>
    requires short { length text.now < 2 ^ 32 }
    ensures { result ≡ first_failing is_printed text.now }
{
    refused_at(first_unprinted(text.get()))
}

// The same for a name.
fn not_printed_name(name: &Name) -> Option<Refusal>
    requires short { length name.now < 2 ^ 32 }
    ensures { result ≡ first_failing is_printed name.now }
{
    refused_at(first_unprinted(name.get()))
}

// The refusal by a place of a text, if there is one.
fn refused_at(place: Option<usize>) -> Option<Refusal>
    requires short { IfSome place (λ before. before < 2 ^ 32) }
    ensures { result ≡ refused_at place }
{
    match place {
        Some(before) => Some(Refusal::BadChar(before as u32)),
        None => None,
    }
}

// How many characters stand before the first that can't be typed.
fn first_untyped(text: &str) -> Option<usize>
    ensures { result ≡ position (λ c. not (can_be_typed c)) (chars text.now) }
{
    text.chars().position(|c| !can_be_typed(c))
}

// How many stand before the first that can't be typed or is a tab or a line feed.
fn first_unprinted(text: &str) -> Option<usize>
    ensures { result ≡ position (λ c. not (is_printed c)) (chars text.now) }
{
    text.chars().position(|c| !is_printed(c))
}

// Whether a character can be typed, and is no tab or line feed.
fn is_printed(c: char) -> bool
    ensures { result ≡ is_printed c }
{
    c >= ' ' && can_be_typed(c)
}

// Whether a character can be typed.
fn can_be_typed(c: char) -> bool
    ensures { result ≡ can_be_typed c }
{
    match c {
        '\t' | '\n' => true,
        '\u{20}'..='\u{d7ff}' | '\u{e000}'..='\u{fffd}' | '\u{10000}'..='\u{10ffff}' => true,
        _ => false,
    }
}
