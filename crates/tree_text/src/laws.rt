//! The laws of writing. Their functions do nothing.

ghost use Rattle.std.specs.Prelude.{◌≡◌, ◌≤◌, List, ℕ, [], ◌∷◌, ◌++◌, true, chars, codes};
ghost use Rattle.std.specs.Str.{IsUtf8};
ghost use Rattle.markup_nodes.specs.Node.{Node, Element};
ghost use Rattle.markup_nodes.specs.Nodes.{char_nodes};
ghost use Rattle.markup_nodes.specs.declared.words.Attr.{Attr};
ghost use Rattle.markup_nodes.specs.declared.tree.Elem.{Elem, out-Elem};
ghost use Rattle.markup_tree.specs.Escapes.{escaped_text};
ghost use Rattle.tree_text.specs.Writing.{attr_text, tag_text, end_text, content_text, written, document_text, is_writable, height, SpellsAlike};

/// UTF-8 bytes that are the text of a document spell its tree, up to the places of elements. Names have to be names,
/// characters legal and no carriage returns outside values, and at most 200 elements may stand in one another.
pub fn reads_back()
    ensures { (bytes : List ℕ) (root : Elem) → IsUtf8 bytes → chars bytes ≡ document_text root → is_writable root ≡ true → height root ≤ 200 → SpellsAlike bytes root }
{}

/// The text of an element is that of its pieces: a tag, whose attributes may be added one by one, and where the element
/// holds something, its runs of characters and its elements in their order, and its end.
pub fn pieces()
    ensures attribute { (name : List ℕ) (attrs : List Attr) (attr : Attr) → tag_text name (attrs ++ attr ∷ []) ≡ tag_text name attrs ++ attr_text attr }
    ensures run { (nodes : List (Node Elem)) (characters : List ℕ) → content_text (nodes ++ char_nodes characters) ≡ content_text nodes ++ escaped_text characters }
    ensures child { (nodes : List (Node Elem)) (elem : Elem) → content_text (nodes ++ Element elem ∷ []) ≡ content_text nodes ++ written elem }
    ensures empty { (elem : Elem) → (out-Elem elem).nodes ≡ [] → written elem ≡ tag_text (out-Elem elem).name (out-Elem elem).attrs ++ codes "/>" }
    ensures filled { (elem : Elem) (node : Node Elem) (nodes : List (Node Elem)) → (out-Elem elem).nodes ≡ node ∷ nodes
        → written elem ≡ tag_text (out-Elem elem).name (out-Elem elem).attrs ++ (codes ">" ++ (content_text (node ∷ nodes) ++ end_text (out-Elem elem).name)) }
{}
