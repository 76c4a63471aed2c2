//! The paragraphs of a plain document, by place.

ghost use Rattle.std.specs.Prelude.{◌≡◌, ◌<◌, ◌≤◌, slice_get, Some};
ghost use Rattle.doc_model.specs.Plain.{IsPlain};
ghost use Rattle.doc_model.specs.Reading.{paragraphs};
ghost use Rattle.round_model.specs.Stops.{paragraph_count};

use doc_model::{Block, Document, Par};

/// How many paragraphs a plain document has: at least one.
pub(crate) fn paragraph_count(doc: &Document) -> u32
    requires { IsPlain doc.now }
    ensures count { result ≡ paragraph_count doc.now }
    ensures some { 1 ≤ result }
    ensures few { result ≤ 65536 }
{
    doc.body.len() as u32
}

/// The paragraph at a place of a plain document, from 0.
pub(crate) fn par_at(doc: &Document, place: usize) -> &Par
    requires plain { IsPlain doc.now }
    requires within { place < paragraph_count doc.now }
    ensures { slice_get (paragraphs doc.now) place ≡ Some result.now }
{
    match &doc.body.get()[place] {
        Block::Par(par) => par,
        Block::Section(_) => unreachable!(),
    }
}
