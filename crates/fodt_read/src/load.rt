//! The document of given bytes.
ghost use Rattle.std.specs.Prelude.{◌≡◌, ◌≢◌, ℕ, List, ◌++◌, ◌↔◌, IsTrue, IfOk, IfErr, IsSomeAnd};
ghost use Rattle.doc_model.specs.declared.document.Document.{Document};
ghost use Rattle.doc_model.specs.Plain.{IsPlain};
ghost use Rattle.spelling_model.specs.Spelling.{canonical, head, opening, IsWritten};

use crate::body::read_body;
use crate::build::document_of;
use crate::fault::LoadFault;
use crate::front::after;
use canon_save::save;
use doc_model::Document;
use spelling_model::{BODY, ROOT, ROOT_END};
use std::alloc::{AllocError, Global};

/// The plain document whose canonical bytes these are. Its paragraphs are numbered from 1 in reading order.
///
/// A second spelling of the same document is `NotPlain`, as `&#65;` for a character or an empty paragraph with two
/// tags: what is read is spelled again and compared. It takes time in proportion to the bytes and to the characters
/// that they stand for, of which there are at most 4194304.
pub fn load_plain(alloc: Global, bytes: &[u8]) -> Result<Document, LoadFault>
    ensures found { IfOk result (λ doc. IsPlain doc × (canonical doc ≡ bytes.now)) }
    ensures only { IfErr result (λ fault. fault ≡ LoadFault.NotPlain → (doc : Document) → IsPlain doc → canonical doc ≢ bytes.now) }
    ensures one { IfOk result (λ doc. (other : Document) → IsPlain other → canonical other ≡ bytes.now → other ≡ doc) }
{
    let Some(body) = after_opening(bytes) else {
        return Err(LoadFault::NotPlain);
    };
    let blocks = read_body(alloc, body)?;
    let doc = document_of(alloc, blocks);
    if is_spelled(alloc, &doc, bytes)? {
        Ok(doc)
    } else {
        Err(LoadFault::NotPlain)
    }
}

// Whether these are the canonical bytes of a document.
fn is_spelled(alloc: Global, doc: &Document, bytes: &[u8]) -> Result<bool, AllocError>
    requires { IsWritten doc.now }
    ensures { IfOk result (λ same. IsTrue same ↔ (canonical doc.now ≡ bytes.now)) }
{
    let spelled = save(alloc, doc)?;
    Ok(spelled.get() == bytes)
}

// The bytes after the start tags of the body, if all before them is as it is in each document.
fn after_opening(bytes: &[u8]) -> Option<&[u8]>
    ensures { (more : List ℕ) → bytes.now ≡ head ++ (opening ++ more) → IsSomeAnd result (λ rest. rest.now ≡ more) }
{
    let rest = after(bytes, ROOT)?;
    let rest = after(rest, ROOT_END)?;
    after(rest, BODY)
}
