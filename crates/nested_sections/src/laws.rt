//! Sections that are met stand in one another as their elements do.

ghost use Rattle.load_model.specs.declared.element.Element.{Element};
ghost use Rattle.load_model.specs.Loaded.{met_of};
ghost use Rattle.load_model.specs.Met.{met_in};
ghost use Rattle.section_faults.specs.Nested.{IsNested};
ghost use Rattle.tree_places.specs.Order.{IsInOrder};

/// Where the elements of a text come in the order of the file, no two of its sections stand at one place, and around each there is
/// none, or there are those around one that stands before it, and that one. So it is of the text of a file.
pub fn sections_are_nested()
    ensures text { (text : Element) → IsInOrder text → IsNested (met_in text) }
    ensures file { (root : Element) → IsInOrder root → IsNested (met_of root) }
{}
