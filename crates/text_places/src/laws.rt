//! Where elements come in the order of the file, declarations do too, and paragraphs are told apart by the places that they stand at.

ghost use Rattle.std.specs.Prelude.{◌≢◌, Bool, map, AllPairs};
ghost use Rattle.doc_model.specs.Reading.{paragraphs, number_of};
ghost use Rattle.load_model.specs.declared.element.Element.{Element};
ghost use Rattle.load_model.specs.Loaded.{draft_of, kept_declarations, used_names};
ghost use Rattle.declared_names.specs.Merge.{IsRising};
ghost use Rattle.tree_places.specs.Order.{IsInOrder};

/// The places of the declarations that are kept rise, and so do those of first uses.
pub fn declarations_rise()
    ensures stated { (sequences : Bool) (root : Element) → IsInOrder root → IsRising (map (λ declared. declared.place) (kept_declarations sequences root)) }
    ensures used { (sequences : Bool) (root : Element) → IsInOrder root → IsRising (map (λ used. used.place) (used_names sequences root)) }
{}

/// No two paragraphs of a draft have one number, since each has the place of an element of its own.
pub fn paragraphs_are_apart()
    ensures { (root : Element) → IsInOrder root → AllPairs (λ number other. number ≢ other) (map number_of (paragraphs (draft_of root))) }
{}
