//! What holds of the containers of paragraphs. These functions do nothing.

ghost use Rattle.std.specs.Prelude.{◌≡◌, ◌≢◌, ◌==◌, ◌&&◌, ◌||◌, not, None, false, true, length};
ghost use Rattle.doc_model.specs.declared.document.Document.{Document};
ghost use Rattle.doc_model.specs.declared.paragraph.ParId.{ParId};
ghost use Rattle.container_facts.specs.Fronts.{begins_with, is_front};
ghost use Rattle.container_rows.specs.Standing.{IsApart};
ghost use Rattle.edit_rules.specs.Places.{are_in_one_text, are_in_order, container_of, held_between, held_from, holds, is_in_note, live_paragraph};
ghost use Rattle.node_array.specs.Rows.{rows_of};
ghost use Rattle.paragraph_rows.specs.Flat.{AreFlat};

/// Two paragraphs stand in one container where one stands behind the other in it, and a third is among those from one to the
/// other where it stands behind the first and before the last.
pub fn containers_are_shared()
    ensures one { (doc : Document) (first other : ParId) → IsApart doc → live_paragraph doc first ≢ None
        → holds other.0 (container_of doc first) ≡ (are_in_order doc first other || are_in_order doc other first) }
    ensures among { (doc : Document) (first last other : ParId) → IsApart doc → are_in_order doc first last ≡ true
        → holds other.0 (held_between doc first last) ≡ (are_in_order doc first other && are_in_order doc other last) }
{}

/// Two live paragraphs stand in one text where both stand in no note, or in one note.
pub fn texts_are_containers()
    ensures body { (doc : Document) (left right : ParId) → IsApart doc → live_paragraph doc left ≢ None → live_paragraph doc right ≢ None
        → is_in_note doc left ≡ false → are_in_one_text doc left right ≡ not (is_in_note doc right) }
    ensures note { (doc : Document) (left right : ParId) → IsApart doc → is_in_note doc left ≡ true
        → are_in_one_text doc left right ≡ (is_in_note doc right && holds right.0 (container_of doc left)) }
{}

/// Paragraphs are all of their container where the first of them begins it and nothing stands behind the last. A paragraph
/// begins its container where its row stands at the front.
pub fn containers_have_ends()
    ensures whole { (doc : Document) (first last : ParId) → IsApart doc → are_in_order doc first last ≡ true
        → (length (held_between doc first last) == length (container_of doc first)) ≡ (begins_with first.0 (container_of doc first) && length (held_from doc last) == 1) }
    ensures all { (doc : Document) (first last : ParId) → IsApart doc → are_in_order doc first last ≡ true
        → begins_with first.0 (container_of doc first) ≡ true → (length (held_from doc last) == 1) ≡ true → held_between doc first last ≡ container_of doc first }
    ensures front { (doc : Document) (par : ParId) → IsApart doc → AreFlat (rows_of doc.body) → begins_with par.0 (container_of doc par) ≡ is_front true par.0 (rows_of doc.body) }
{}
