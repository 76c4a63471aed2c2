//! The places of elements come in the order of the file, and so do those of bad names.

ghost use Rattle.std.specs.Prelude.{ℕ, ◌≤◌, List, [], AllPairs};
ghost use Rattle.markup_nodes.specs.declared.tree.Elem.{Elem};
ghost use Rattle.markup_nodes.specs.declared.tree.Tree.{Tree};
ghost use Rattle.markup_tree.specs.Documents.{Spells};
ghost use Rattle.load_model.specs.Names.{resolved, places_of_bad_names};
ghost use Rattle.tree_places.specs.Order.{IsInOrder, AreTagsInOrder};

/// In a tree that bytes spell each tag stands behind those before it.
pub fn spelled_trees_are_in_order()
    ensures { (bytes : List ℕ) (tree : Tree) → Spells bytes tree → AreTagsInOrder tree.root }
{}

/// With its names resolved it stays so.
pub fn resolved_trees_are_in_order()
    ensures { (root : Elem) → AreTagsInOrder root → IsInOrder (resolved root) }
{}

/// The places of bad names rise.
pub fn bad_names_rise()
    ensures { (root : Elem) → AreTagsInOrder root → AllPairs (λ place other. place ≤ other) (places_of_bad_names root []) }
{}
