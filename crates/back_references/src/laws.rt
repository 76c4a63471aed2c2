//! What references are read as.

ghost use Rattle.std.specs.Prelude.{◌≡◌, ◌≢◌, ℕ, List, [], map};
ghost use Rattle.std.specs.List.{AllByRecursion as Each};
ghost use Rattle.doc_model.specs.declared.document.Document.{Document};
ghost use Rattle.doc_model.specs.declared.style.Family.{Family};
ghost use Rattle.doc_model.specs.declared.style.Family.TheVariants as family;
ghost use Rattle.doc_model.specs.Limits.{IsWithinLimits};
ghost use Rattle.doc_model.specs.Parts.{names};
ghost use Rattle.doc_model.specs.Valid.{IsNoneOrGiven, IsNoneOrStyle};
ghost use Rattle.load_model.specs.Styles.{Names, reference, style_reference};
ghost use Rattle.back_fields.specs.Fit.{IsNameOrNone};
ghost use Rattle.back_paragraphs.specs.Paragraphs.{IsNoneOrGood};
ghost use Rattle.back_spans.specs.Spans.{IsTextStyle};

/// A name that is none, or is there, is read as itself.
pub fn references_are_good()
    ensures style { (names : Names) (doc : Document) (of : Family) (name : List ℕ) → names.styles ≡ map (λ style. record { family = style.family; name = style.name }) doc.styles → IsNoneOrStyle doc of name → IsNoneOrGood (style_reference names of) name }
    ensures span { (names : Names) (doc : Document) (name : List ℕ) → names.styles ≡ map (λ style. record { family = style.family; name = style.name }) doc.styles → name ≢ [] → IsNoneOrStyle doc family.Text name → IsTextStyle names name }
    ensures given { (given : List (List ℕ)) (name : List ℕ) → IsNoneOrGiven given name → IsNoneOrGood (reference given) name }
{}

/// Within the limits of a document, each of its names has a length that is read.
pub fn names_are_short()
    ensures { (doc : Document) → IsWithinLimits doc → Each IsNameOrNone (names doc) }
{}
