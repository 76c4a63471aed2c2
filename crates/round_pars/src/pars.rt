//! Paragraphs with their labels, properties and masters.

ghost use Rattle.std.specs.Prelude.{◌≡◌, ◌++◌, ◌∷◌, [], map, IfOk, OnOk};
ghost use Rattle.std.specs.List.{AllByRecursion as Each};
ghost use Rattle.doc_model.specs.declared.document.Document.{Document};
ghost use Rattle.format_model.specs.Keys.{standing};
ghost use Rattle.doc_texts.specs.Holds.{AreTexts};
ghost use Rattle.round_pars.specs.Pars.{AreNumbersDistinct, AreStylesOf, AreRoundPars, HasProps};

use doc_model::{Family, Name, Props};
use doc_texts::ParText;
use std::alloc::{AllocError, Global};
use style_tree::StyleTree;

/// A paragraph with what rounds read of it whatever its page is.
#[derive(Debug, Drop)]
pub struct RoundPar<'a> {
    /// The paragraph as it is gathered.
    pub text: &'a ParText,
    /// Its effective properties.
    pub props: Props,
    /// The master that its style or an ancestor of it states. `None` is unstated; the empty name may be stated.
    pub master: Option<Name>,
}

/// The paragraphs of a document in reading order. They are handed in as they are gathered, with the document's styles.
pub fn round_pars<'a>(
    alloc: Global,
    styles: &StyleTree,
    texts: &'a [ParText],
) -> Result<Vec<RoundPar<'a>>, AllocError>
    ensures { (doc : Document) → AreTexts doc texts.now → AreStylesOf doc styles.now → AreNumbersDistinct doc → IfOk result (λ pars. AreRoundPars doc (standing doc) pars.items) }
{
    let mut pars = Vec::with_capacity(alloc, texts.len())?;
    for text in texts {
        push_par(&mut pars, styles, text)?;
    }
    Ok(pars)
}

/// Adds a paragraph.
fn push_par<'a>(
    pars: &mut Vec<RoundPar<'a>>,
    styles: &StyleTree,
    text: &'a ParText,
) -> Result<(), AllocError>
    ensures texts { OnOk result (map (λ par. par.text.now) pars.new.items ≡ map (λ par. par.text.now) pars.old.items ++ text.now ∷ []) }
    ensures props { Each (HasProps styles.now) pars.old.items → OnOk result (Each (HasProps styles.now) pars.new.items) }
{
    let props = styles.effective(&text.head.style)?;
    let stated = styles.stated(Family::Paragraph, &text.head.style)?;
    pars.push(RoundPar {
        text,
        props,
        master: stated.master,
    })?;
    Ok(())
}
