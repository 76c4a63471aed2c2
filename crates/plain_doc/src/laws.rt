//! The laws of plain documents. Their functions do nothing.
ghost use Rattle.std.specs.Prelude.{◌≡◌, ◌≢◌, ◌+◌, [], List, ℕ, map, length, sum_by, nat_lt, if◌then◌else◌, Some, None};
ghost use Rattle.std.specs.List.{AllByRecursion as Each, splice, remove_range};
ghost use Rattle.std.specs.Option.{option_map};
ghost use Rattle.doc_model.specs.declared.paragraph.Item.{Item};
ghost use Rattle.doc_model.specs.declared.paragraph.ParId.{ParId};
ghost use Rattle.edit_model.specs.Edit.{with_items, with_text, without_range, live_paragraph};
ghost use Rattle.doc_model.specs.Limits.{first_passed};
ghost use Rattle.doc_model.specs.Chars.{IsPlainChar};
ghost use Rattle.spelling_model.specs.Spelling.{canonical};
ghost use Rattle.doc_model.specs.Valid.{IsValid};
ghost use Rattle.doc_model.specs.Plain.{plain_document, plain_item, plain_paragraph};
ghost use Rattle.plain_doc.specs.PlainSpelling.{plain_bytes};
ghost use Rattle.plain_doc.specs.PlainParts.{ArePlainTexts, with_changed, text_numbered, plain_passed};

use doc_model::Limit;

/// The canonical bytes of a plain document are spelled from the characters of its paragraphs.
pub fn plain_spelling()
    ensures { (texts : List (List ℕ)) → canonical (plain_document texts) ≡ plain_bytes texts }
{}

/// A plain document is valid exactly where it has a paragraph and passes none of three limits.
pub fn plain_validity()
    ensures valid { (texts : List (List ℕ)) → ArePlainTexts texts → Each (Each IsPlainChar) texts → IsValid (plain_document texts) }
    ensures limits { (texts : List (List ℕ)) → IsValid (plain_document texts) → ArePlainTexts texts }
{}

/// A change of the items of one paragraph changes its text alone. Inserts and deletes are such changes.
pub fn plain_edit()
    ensures live { (texts : List (List ℕ)) (par : ParId) → live_paragraph (plain_document texts) par ≡ option_map (plain_paragraph par.0) (text_numbered par.0 1 texts) }
    ensures insert { (at : ℕ) (new text : List ℕ) → Each IsPlainChar new → with_text at new (map plain_item text) ≡ map plain_item (splice text at at new) }
    ensures delete { (from to : ℕ) (text : List ℕ) → without_range from to (map plain_item text) ≡ map plain_item (remove_range text from to) }
    ensures change { (number : ℕ) (change : List Item → List Item) (new : List ℕ → List ℕ) → ((text : List ℕ) → change (map plain_item text) ≡ map plain_item (new text))
        → (texts : List (List ℕ)) → with_items number change (plain_document texts) ≡ plain_document (with_changed number new 1 texts) }
{}

/// The first limit that a plain document passes is told by its texts.
pub fn plain_limits()
    ensures passed { (texts : List (List ℕ)) → first_passed (plain_document texts) ≡ plain_passed texts }
    ensures changed { (number : ℕ) (new : List ℕ → List ℕ) (texts : List (List ℕ)) (text : List ℕ) → ArePlainTexts texts → text_numbered number 1 texts ≡ Some text
        → plain_passed (with_changed number new 1 texts)
        ≡ (if nat_lt 32768 (length (new text)) then Some Limit.ItemsOfParagraph
        else if nat_lt (4194304 + length text) (sum_by length texts + length (new text)) then Some Limit.Items else None) }
    ensures within { (texts : List (List ℕ)) → texts ≢ [] → plain_passed texts ≡ None → ArePlainTexts texts }
    ensures lengths { (number here : ℕ) (new : List ℕ → List ℕ) (texts : List (List ℕ)) → length (with_changed number new here texts) ≡ length texts }
{}
