//! What list styles and the outline are read as.

ghost use Rattle.std.specs.Prelude.{◌≡◌, []};
ghost use Rattle.std.specs.List.{AllByRecursion as Each};
ghost use Rattle.doc_model.specs.declared.list_style.ListStyle.{ListStyle};
ghost use Rattle.doc_model.specs.Valid.{IsNumberLevel};
ghost use Rattle.back_fields.specs.Fit.{IsName};
ghost use Rattle.back_lists.specs.Lists.{AreReadableLevels, IsListBack, IsOutlineBack};

/// A list style is read as itself, with its levels in ascending order, and nothing is left out.
pub fn list_styles_are_read_back()
    ensures { (list : ListStyle) → IsName list.name → AreReadableLevels list.levels → IsListBack list }
{}

/// The outline is read as itself, where it has a level, and nothing is left out.
pub fn outlines_are_read_back()
    ensures { (outline : ListStyle) → outline.name ≡ [] → AreReadableLevels outline.levels → Each IsNumberLevel outline.levels → IsOutlineBack outline }
{}
