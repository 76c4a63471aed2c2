//! The characters of the elements that bytes spell.

ghost use Rattle.std.specs.Prelude.{ℕ, List};
ghost use Rattle.std.specs.List.{AllByRecursion as Each};
ghost use Rattle.markup_nodes.specs.declared.tree.Tree.{Tree};
ghost use Rattle.markup_tree.specs.Documents.{Spells};
ghost use Rattle.doc_model.specs.Chars.{IsLegal};
ghost use Rattle.load_model.specs.declared.element.Element.{Element, out-Element};
ghost use Rattle.load_model.specs.Names.{resolved};
ghost use Rattle.legal_trees.specs.Legal.{IsLegalTree, IsLegalNode};

/// In a tree that bytes spell, with its names resolved, each character of an attribute's value and of content is legal.
pub fn spelled_trees_are_legal()
    ensures { (bytes : List ℕ) (tree : Tree) → Spells bytes tree → IsLegalTree (resolved tree.root) }
{}

/// Where all characters of an element are legal, so are those of its attributes and of what it holds.
pub fn parts_are_legal()
    ensures attributes { (element : Element) → IsLegalTree element → Each (λ attribute. Each IsLegal attribute.text) (out-Element element).attributes }
    ensures nodes { (element : Element) → IsLegalTree element → Each IsLegalNode (out-Element element).nodes }
{}
