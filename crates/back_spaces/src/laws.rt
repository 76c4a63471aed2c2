//! What the pieces of a paragraph are read as.

ghost use Rattle.std.specs.Prelude.{◌≡◌, List, []};
ghost use Rattle.std.specs.List.{flat_map, AllByRecursion as Each};
ghost use Rattle.doc_model.specs.declared.paragraph.Item.{Item};
ghost use Rattle.doc_model.specs.Valid.{IsItem};
ghost use Rattle.load_model.specs.Content.{items_of_raw};
ghost use Rattle.spelling_model.specs.Spelling.{pieces_of, placed};
ghost use Rattle.back_spaces.specs.Raws.{raws_of};

/// What is read of the pieces of a paragraph's items is these items again, with all spaces and no other.
pub fn spaces_are_read_back()
    ensures { (items : List Item) → Each IsItem items → items_of_raw (flat_map raws_of (pieces_of (placed [] items))) ≡ items }
{}
