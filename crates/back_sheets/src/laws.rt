//! What page layouts are read as.

ghost use Rattle.doc_model.specs.declared.page_layout.PageLayout.{PageLayout};
ghost use Rattle.back_sheets.specs.Layouts.{IsReadableLayout, IsLayoutBack};

/// A page layout is read as itself, and nothing is left out.
pub fn layouts_are_read_back()
    ensures { (layout : PageLayout) → IsReadableLayout layout → IsLayoutBack layout }
{}
