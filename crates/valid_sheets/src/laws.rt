//! What the styles, lists, page layouts and masters of a file are read as.

ghost use Rattle.legal_trees.specs.Legal.{IsLegalTree};
ghost use Rattle.load_model.specs.declared.element.Element.{Element};
ghost use Rattle.load_model.specs.Loaded.{draft_of};
ghost use Rattle.std.specs.List.{AllByRecursion as Each};
ghost use Rattle.valid_sheets.specs.Sheets.{AreHeadersValid, AreListsValid, AreOthersNamed, AreReferencesThere, AreStylesNamed, IsGoodName, sheet_names};

/// Styles of one family have different names, and those that aren't automatic stand first; lists, page layouts and masters have different
/// names; and each has a name.
pub fn names_are_apart()
    ensures styles { (root : Element) → AreStylesNamed (draft_of root) }
    ensures others { (root : Element) → AreOthersNamed (draft_of root) }
{}

/// The parents, following styles and masters of styles are there, and so are the layouts and following masters of masters. A style states
/// what its family has.
pub fn references_are_there()
    ensures { (root : Element) → AreReferencesThere (draft_of root) }
{}

/// Where all characters of a file are legal, the levels of its lists and of its outline are labelled by legal characters and ascend, and no
/// level of the outline is labelled by a bullet.
pub fn lists_are_valid()
    ensures { (root : Element) → IsLegalTree root → AreListsValid (draft_of root) }
{}

/// Where all characters of a file are legal, headers and footers have at most sixteen paragraphs each, which hold what may stand there:
/// legal characters from U+20 on, tabs, breaks, page numbers, page counts and chapters.
pub fn headers_are_valid()
    ensures { (root : Element) → IsLegalTree root → AreHeadersValid (draft_of root) }
{}

/// Where all characters of a file are legal, so are those of the names that stand in its styles, lists, page layouts and masters, and none of
/// these is longer than 1024 characters.
pub fn names_are_legal()
    ensures { (root : Element) → IsLegalTree root → Each IsGoodName (sheet_names (draft_of root)) }
{}
