//! Paragraphs of the body.

ghost use Rattle.std.specs.Prelude.{◌≡◌, ◌++◌, map, List, IfOk};
ghost use Rattle.doc_model.specs.declared.document.Document.{Document};
ghost use Rattle.key_parts.specs.Displays.{displays_of};
ghost use Rattle.format_model.specs.Standing.{body_pars};
ghost use Rattle.format_model.specs.Keys.{Standing, standing, standing_with_notes};
ghost use Rattle.doc_texts.specs.Places.{body_par};
ghost use Rattle.round_pars.specs.Pars.{AreRoundPars};
ghost use Rattle.round_texts.specs.Texts.{AreBodyTexts, IsBodyText};

use crate::left::ParsLeft;
use crate::notes::{NoteText, note_texts};
use doc_texts::BodyPlace;
use key_parts::SpanDisplay;
use round_pars::RoundPar;
use std::alloc::{AllocError, Global};

/// A paragraph of the body with its notes.
#[derive(Debug, Drop)]
pub struct BodyText<'a> {
    /// Whether a section around it is hidden.
    pub in_hidden_section: bool,
    /// The paragraph.
    pub par: &'a RoundPar<'a>,
    /// Its notes in the order of their items.
    pub notes: Vec<NoteText<'a>>,
}

/// The paragraphs of the body of a document with their notes. Handed in are the text styles that state whether they are shown, the
/// paragraphs of the body as they are placed, and all paragraphs in reading order.
pub fn body_texts<'a>(
    alloc: Global,
    displays: &[SpanDisplay],
    places: &[BodyPlace],
    pars: &'a [RoundPar<'a>],
) -> Result<Vec<BodyText<'a>>, AllocError>
    ensures { (doc : Document) → displays.now ≡ displays_of doc.styles → map body_par places.now ≡ body_pars doc → AreRoundPars doc (standing doc) pars.now → IfOk result (λ texts. AreBodyTexts doc texts.items) }
{
    let mut texts = Vec::with_capacity(alloc, places.len())?;
    let mut left = ParsLeft { pars };
    'places: for place in places {
        let text = body_text(alloc, displays, place, &mut left)?;
        texts.push(text)?;
    }
    Ok(texts)
}

/// A paragraph of the body with its notes, by the paragraphs that are left.
fn body_text<'a>(
    alloc: Global,
    displays: &[SpanDisplay],
    place: &BodyPlace,
    left: &mut ParsLeft<'a>,
) -> Result<BodyText<'a>, AllocError>
    ensures { (doc : Document) (after : List Standing) → displays.now ≡ displays_of doc.styles → AreRoundPars doc (standing_with_notes doc (body_par place.now) ++ after) left.old.pars.now → IfOk result (λ text. IsBodyText doc (body_par place.now) text × AreRoundPars doc after left.new.pars.now) }
{
    let par = left.next_par()?;
    let otherwise = par.props.display.unwrap_or(true);
    let items = place.par.items.as_slice();
    let notes = note_texts(alloc, displays, otherwise, items, left)?;
    Ok(BodyText {
        in_hidden_section: place.in_hidden_section,
        par,
        notes,
    })
}
