//! The laws of documents. Their functions do nothing.

ghost use Rattle.std.specs.Prelude.{◌≡◌, List, ℕ};
ghost use Rattle.markup_tree.specs.Documents.{Spells, HasOffence};
ghost use Rattle.markup_tree.specs.declared.reader.Offence.{Offence};
ghost use Rattle.markup_nodes.specs.declared.tree.Tree.{Tree};

/// A string has one tree or one first offence, and not both.
pub fn one_tree()
    ensures tree { (bytes : List ℕ) (one other : Tree) → Spells bytes one → Spells bytes other → one ≡ other }
    ensures offence { (bytes : List ℕ) (one other : Offence) → HasOffence bytes one → HasOffence bytes other → one ≡ other }
    ensures apart { (bytes : List ℕ) (tree : Tree) (offence : Offence) → Spells bytes tree → HasOffence bytes offence → ⊥ }
{}
