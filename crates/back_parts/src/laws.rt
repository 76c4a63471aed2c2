//! What the style parts, masters and body of a written document are read as.

ghost use Rattle.std.specs.Prelude.{◌≡◌, [], ◌∷◌, Some};
ghost use Rattle.std.specs.List.{AllByRecursion as Each};
ghost use Rattle.doc_model.specs.declared.document.Document.{Document};
ghost use Rattle.doc_model.specs.Parts.{head_paragraphs};
ghost use Rattle.doc_model.specs.Valid.{IsValid};
ghost use Rattle.load_model.specs.declared.names.Key.TheVariants as key;
ghost use Rattle.load_model.specs.Blocks.{left_by};
ghost use Rattle.load_model.specs.Headers.{masters, masters_left};
ghost use Rattle.load_model.specs.Left.{nothing, all_but, attributes_of, children};
ghost use Rattle.load_model.specs.Loaded.{is_global, text_of, read_in_root, body_left};
ghost use Rattle.load_model.specs.Styles.{names_of, styles, defaults, list_styles, outline, layouts, style_parts_left};
ghost use Rattle.load_model.specs.Values as value;
ghost use Rattle.load_model.specs.Values.{rule};
ghost use Rattle.back_heads.specs.Heads.{IsAdjusted};
ghost use Rattle.back_masters.specs.Masters.{IsMasterBack};
ghost use Rattle.back_lists.specs.Lists.{IsListBack, IsOutlineBack};
ghost use Rattle.back_sheets.specs.Layouts.{IsLayoutBack};
ghost use Rattle.back_styles.specs.Styles.{IsStyleBack, IsDefaultBack};
ghost use Rattle.back_parts.specs.Parts.{AreBack, AreStylesInRange, names_in, root_read, text_read};

/// The names that can be referred to in a valid document are those of its styles, lists, layouts and masters, in their order.
pub fn names_are_read_back()
    ensures { (doc : Document) → IsValid doc → names_of (root_read doc) ≡ names_in doc }
{}

/// Where each style, list style and layout of a valid document is read as itself, so are all of them, and nothing is left out in the
/// style parts.
pub fn sheets_are_read_back()
    ensures styles { (doc : Document) → IsValid doc → AreBack doc → styles (names_of (root_read doc)) (root_read doc) ≡ doc.styles }
    ensures defaults { (doc : Document) → IsValid doc → AreBack doc → defaults (root_read doc) ≡ doc.defaults }
    ensures lists { (doc : Document) → IsValid doc → AreBack doc → list_styles (root_read doc) ≡ doc.lists }
    ensures outline { (doc : Document) → IsValid doc → AreBack doc → outline (root_read doc) ≡ doc.outline }
    ensures layouts { (doc : Document) → IsValid doc → AreBack doc → layouts (root_read doc) ≡ doc.layouts }
    ensures left { (doc : Document) → IsValid doc → AreBack doc → style_parts_left (names_of (root_read doc)) (root_read doc) ≡ nothing }
{}

/// Where each master of a valid document is read as itself, so are all of them, and nothing is left out in their part.
pub fn masters_are_read_back()
    ensures masters { (doc : Document) → IsValid doc → AreBack doc → masters (names_of (root_read doc)) (root_read doc) ≡ doc.masters }
    ensures left { (doc : Document) → IsValid doc → AreBack doc → masters_left (names_of (root_read doc)) (root_read doc) ≡ nothing }
{}

/// A file says whether it is a master document, its text is the one that is written, and nothing is left out in its root and its body.
pub fn files_are_read_back()
    ensures global { (doc : Document) → is_global (root_read doc) ≡ doc.global }
    ensures text { (doc : Document) → text_of (root_read doc) ≡ Some (text_read doc) }
    ensures attributes { (doc : Document) → left_by (rule key.Mimetype value.any_text ∷ []) (attributes_of (root_read doc)) ≡ nothing }
    ensures root { (doc : Document) → all_but (read_in_root (root_read doc)) (children (root_read doc)) ≡ nothing }
    ensures body { (doc : Document) → body_left (root_read doc) ≡ nothing }
{}

/// The styles, list styles, outline and layouts of a valid document are each read as itself, where their numbers are in the ranges of
/// their types.
pub fn valid_styles_are_read_back()
    ensures styles { (doc : Document) → IsValid doc → AreStylesInRange doc → Each (IsStyleBack (names_in doc)) doc.styles }
    ensures defaults { (doc : Document) → IsValid doc → AreStylesInRange doc → IsDefaultBack doc.defaults }
    ensures lists { (doc : Document) → IsValid doc → AreStylesInRange doc → Each IsListBack doc.lists }
    ensures outline { (doc : Document) → IsValid doc → AreStylesInRange doc → IsOutlineBack doc.outline }
    ensures layouts { (doc : Document) → IsValid doc → AreStylesInRange doc → Each IsLayoutBack doc.layouts }
{}

/// The masters of a valid document are each read as itself, where the pages that the fields of their headers and footers add are in
/// the range of their type.
pub fn valid_masters_are_read_back()
    ensures { (doc : Document) → IsValid doc → Each (λ par. Each IsAdjusted par.items) (head_paragraphs doc) → Each (IsMasterBack (names_in doc)) doc.masters }
{}
