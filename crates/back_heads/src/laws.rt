//! What headers and footers are read as.

ghost use Rattle.std.specs.Prelude.{ℕ, ◌≤◌, List, length};
ghost use Rattle.std.specs.List.{AllByRecursion as Each};
ghost use Rattle.doc_model.specs.declared.page_layout.HeadPar.{HeadPar};
ghost use Rattle.load_model.specs.Styles.{Names};
ghost use Rattle.back_heads.specs.Heads.{IsReadableHead, IsHeadBack, IsHeaderBack};

/// A paragraph of a header or footer is read as itself, and nothing is left out.
pub fn head_paragraphs_are_read_back()
    ensures { (names : Names) (par : HeadPar) → IsReadableHead par → IsHeadBack names par }
{}

/// At most sixteen of them are read back from the element that holds them, and nothing is left out.
pub fn headers_are_read_back()
    ensures { (names : Names) (name : List ℕ) (pars : List HeadPar) → Each IsReadableHead pars → length pars ≤ 16 → IsHeaderBack names name pars }
{}
