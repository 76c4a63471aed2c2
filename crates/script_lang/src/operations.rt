//! Edits as lines of a script.

ghost use Rattle.std.specs.Prelude.{◌≡◌, ◌++◌, chars, OnOk, IfOk};
ghost use Rattle.std.specs.Str.{IsUtf8, encode_utf8_all};
ghost use Rattle.doc_model.specs.declared.edit.EditOp.TheVariants.{InsertText, DeleteRange};
ghost use Rattle.desk_model.specs.Script.{IsEditLine, IsLineText};
ghost use Rattle.script_lang.specs.Operations.{insertion_words, deletion_words, edit_words, HasLine};

use crate::printing::{push_bytes, push_two_numbers, push_word_number};
use crate::quotes::push_quoted;
use doc_model::{EditOp, Txt};
use std::alloc::{AllocError, Global};

/// Prints an edit as a line of a script, without a line feed.
///
/// Only insertions of texts and deletions of ranges have lines so far; a text that is inserted has a character, and none but
/// those of U+20 to U+7E.
pub fn print_op(alloc: Global, op: &EditOp) -> Result<Txt, AllocError>
    requires { HasLine op.now }
    ensures printed { IfOk result (λ line. encode_utf8_all line ≡ edit_words op.now) }
    ensures read_back { IfOk result (λ line. IsEditLine (encode_utf8_all line) op.now) }
{
    match op {
        EditOp::InsertText { par, at, text } => print_insertion(alloc, par.0, *at, text.get()),
        EditOp::DeleteRange { par, from, to } => print_deletion(alloc, par.0, *from, *to),
        _ => unreachable!(),
    }
}

fn print_insertion(alloc: Global, par: u32, at: u32, text: &str) -> Result<Txt, AllocError>
    ensures printed { IfOk result (λ line. encode_utf8_all line ≡ insertion_words par at (chars text.now)) }
    ensures read_back { IfOk result (λ line. IsLineText (chars text.now) → IsEditLine (encode_utf8_all line) (InsertText (record { 0 = par }) at (chars text.now))) }
{
    let mut line = Vec::new(alloc);
    push_insertion(&mut line, par, at, text)?;
    Ok(text_of(line))
}

fn print_deletion(alloc: Global, par: u32, from: u32, to: u32) -> Result<Txt, AllocError>
    ensures printed { IfOk result (λ line. encode_utf8_all line ≡ deletion_words par from to) }
    ensures read_back { IfOk result (λ line. IsEditLine (encode_utf8_all line) (DeleteRange (record { 0 = par }) from to)) }
{
    let mut line = Vec::new(alloc);
    push_deletion(&mut line, par, from, to)?;
    Ok(text_of(line))
}

fn push_insertion(out: &mut Vec<u8>, par: u32, at: u32, text: &str) -> Result<(), AllocError>
    ensures { OnOk result (out.new.items ≡ out.old.items ++ insertion_words par at (chars text.now)) }
{
    push_two_numbers(out, b"insert ", par, at)?;
    push_bytes(out, b" ")?;
    push_quoted(out, text)
}

fn push_deletion(out: &mut Vec<u8>, par: u32, from: u32, to: u32) -> Result<(), AllocError>
    ensures { OnOk result (out.new.items ≡ out.old.items ++ deletion_words par from to) }
{
    push_two_numbers(out, b"delete ", par, from)?;
    push_word_number(out, b" ", to)
}

/// The text that these bytes are. It takes no memory.
fn text_of(bytes: Vec<u8>) -> Txt
    requires { IsUtf8 bytes.items }
    ensures { encode_utf8_all result ≡ bytes.items }
{
    let text = String::from_utf8(bytes).unwrap();
    Txt::from_list(text)
}
