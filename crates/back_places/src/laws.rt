//! What the places of a tree are to its names.

ghost use Rattle.std.specs.Prelude.{◌≡◌};
ghost use Rattle.back_names.specs.Named.{named, placeless};
ghost use Rattle.markup_nodes.specs.declared.tree.Elem.{Elem};
ghost use Rattle.tree_text.specs.Writing.{unplaced};

/// Names mean the same wherever their elements stand: the tree without places is named as the tree is, and trees that differ in
/// places alone are named alike.
pub fn places_are_of_no_account()
    ensures named { (elem : Elem) → placeless (named elem) ≡ named (unplaced elem) }
    ensures alike { (one other : Elem) → unplaced one ≡ unplaced other → placeless (named one) ≡ placeless (named other) }
{}
