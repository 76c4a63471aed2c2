//! What the values of attributes are read as, each as it is written.

ghost use Rattle.std.specs.Prelude.{◌≡◌, ◌≢◌, ℕ, ℤ, ◌<◌, ◌≤◌, ◌^◌, Bool, true, List, [], ◌∷◌, length, decimal, Some};
ghost use Rattle.doc_model.specs.declared.field.ChapterShow.{ChapterShow};
ghost use Rattle.doc_model.specs.declared.field.Format.{Format};
ghost use Rattle.doc_model.specs.declared.field.NoteClass.{NoteClass};
ghost use Rattle.doc_model.specs.declared.field.RefForm.{RefForm};
ghost use Rattle.doc_model.specs.declared.field.Select.{Select};
ghost use Rattle.doc_model.specs.declared.field.SeqForm.{SeqForm};
ghost use Rattle.doc_model.specs.declared.style.Align.{Align};
ghost use Rattle.doc_model.specs.declared.style.BreakAt.{BreakAt};
ghost use Rattle.doc_model.specs.declared.style.Family.{Family};
ghost use Rattle.doc_model.specs.declared.style.PageStart.TheVariants as start;
ghost use Rattle.doc_model.specs.Ranges.{IsPageAdjust};
ghost use Rattle.load_model.specs.Fields.{own_name};
ghost use Rattle.load_model.specs.Values as value;
ghost use Rattle.written_model.specs.Values as text;

/// The words of truth, families, places, formats, forms and classes are read back.
pub fn words_are_read_back()
    ensures truth { (one : Bool) → value.truth (text.truth one) ≡ Some one }
    ensures family { (one : Family) → value.family_of_text (text.family_text one) ≡ Some one }
    ensures alignment { (one : Align) → value.alignment (text.align_text one) ≡ Some one }
    ensures break_at { (one : BreakAt) → value.break_at (text.break_text one) ≡ Some one }
    ensures keep { (one : Bool) → value.keep (text.keep_text one) ≡ Some one }
    ensures display { (one : Bool) → value.display (text.display_text one) ≡ Some one }
    ensures format { (one : Format) → value.number_format (text.format_text one) ≡ Some one }
    ensures chapter { (one : ChapterShow) → value.chapter_display (text.chapter_text one) ≡ Some one }
    ensures select { (one : Select) → value.page_select (text.select_text one) ≡ Some one }
    ensures reference { (one : RefForm) → value.reference_form (text.reference_text one) ≡ Some one }
    ensures sequence { (one : SeqForm) → value.sequence_form (text.sequence_text one) ≡ Some one }
    ensures class { (one : NoteClass) → value.note_class (text.class_text one) ≡ Some one }
{}

/// Numbers within their range are read back.
pub fn numbers_are_read_back()
    ensures number { (least greatest one : ℕ) → least ≤ one → one ≤ greatest → one < 2 ^ 64 → value.number least greatest (decimal one) ≡ Some one }
    ensures heading { (one : ℕ) → 1 ≤ one → one ≤ 10 → value.heading_level (decimal one) ≡ Some one }
    ensures start { (one : ℕ) → one ≤ 65535 → value.page_start (text.page_start_text (start.At one)) ≡ Some (start.At one) }
    ensures auto { value.page_start (text.page_start_text start.Auto) ≡ Some start.Auto }
    ensures adjust { (one : ℤ) → IsPageAdjust one → value.page_adjust (text.whole_text one) ≡ Some one }
{}

/// Names that aren't too long and single characters are read back.
pub fn names_are_read_back()
    ensures name { (one : List ℕ) → one ≢ [] → length one ≤ 1024 → value.name one ≡ Some one }
    ensures or_none { (one : List ℕ) → length one ≤ 1024 → value.name_or_none one ≡ Some one }
    ensures own { (one : List ℕ) → length one ≤ 1024 → own_name true one ≡ Some one }
    ensures character { (one : ℕ) → value.one_character (one ∷ []) ≡ Some one }
{}
