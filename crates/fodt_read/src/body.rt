//! Reading the paragraphs of a body.
ghost use Rattle.std.specs.Prelude.{◌≡◌, ℕ, ◌≤◌, ◌<◌, ◌↔◌, List, [], ◌∷◌, ◌++◌, length, IsTrue, IfOk, OnOk, MatchResult};
ghost use Rattle.std.specs.List.{flat_map};
ghost use Rattle.doc_model.specs.Plain.{plain_blocks};
ghost use Rattle.spelling_model.specs.Spelling.{tail};
ghost use Rattle.plain_doc.specs.PlainSpelling.{plain_paragraph_bytes};
ghost use Rattle.fodt_read.specs.PlainText.{ArePlain};

use crate::build::plain_block;
use crate::fault::LoadFault;
use crate::paragraph::read_paragraph;
use doc_model::Block;
use spelling_model::TAIL;
use std::alloc::{AllocError, Global};

// How many paragraphs a document may have.
const MOST_PARAGRAPHS: usize = 65536;

// How many characters a document may have.
const MOST_CHARACTERS: usize = 4194304;

// Reads paragraphs up to the end of the document.
pub(crate) fn read_body(alloc: Global, bytes: &[u8]) -> Result<Vec<Block>, LoadFault>
    ensures plain { IfOk result (λ blocks. (texts : List (List ℕ)) × ArePlain texts × (blocks.items ≡ plain_blocks 1 texts)) }
    ensures read { (texts : List (List ℕ)) → ArePlain texts → bytes.now ≡ flat_map plain_paragraph_bytes texts ++ tail
        → MatchResult result (λ blocks. blocks.items ≡ plain_blocks 1 texts) (λ fault. fault ≡ LoadFault.NoMemory) }
{
    let mut body = Vec::new(alloc);
    let mut text = Vec::new(alloc);
    let mut characters = 0;
    let mut rest = bytes;
    'paragraphs: while !is_tail(rest) {
        rest = read_paragraph(rest, &mut text)?;
        if body.len() == MOST_PARAGRAPHS {
            return Err(LoadFault::NotPlain);
        }
        if text.len() > MOST_CHARACTERS - characters {
            return Err(LoadFault::NotPlain);
        }
        characters += text.len();
        push_paragraph(alloc, &mut body, &text)?;
    }
    if body.is_empty() {
        return Err(LoadFault::NotPlain);
    }
    Ok(body)
}

// Whether these are the bytes after the last paragraph.
fn is_tail(bytes: &[u8]) -> bool
    ensures { IsTrue result ↔ (bytes.now ≡ tail) }
{
    bytes == TAIL.as_bytes()
}

// Adds the paragraph of a text to those that are numbered from 1.
fn push_paragraph(alloc: Global, blocks: &mut Vec<Block>, text: &[u8]) -> Result<(), AllocError>
    requires { length blocks.old.items < 65536 }
    ensures ok { (texts : List (List ℕ)) → blocks.old.items ≡ plain_blocks 1 texts → OnOk result (blocks.new.items ≡ plain_blocks 1 (texts ++ text.now ∷ [])) }
{
    let number = blocks.len() as u32 + 1;
    blocks.push(plain_block(alloc, number, text)?)?;
    Ok(())
}
