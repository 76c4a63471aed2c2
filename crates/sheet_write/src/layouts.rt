//! Page layouts.

ghost use Rattle.std.specs.Prelude.{◌≡◌, ◌++◌, ◌||◌, is_some, chars, string_bytes, codes, OnOk};
ghost use Rattle.std.specs.List.{flat_map};
ghost use Rattle.sheet_write.specs.Held.{held_text};
ghost use Rattle.spelling_model.specs.Spelling.{is_there};
ghost use Rattle.tree_text.specs.Writing.{attr_text, child_text, content_text};
ghost use Rattle.written_model.specs.Elements.{properties};
ghost use Rattle.written_model.specs.Styles.{layout_attributes, layout_element};

use doc_model::PageLayout;
use element_text::{push_empty_end, push_end, push_name, push_tag_end};
use std::alloc::AllocError;
use style_write::push_length_stated;
use value_write::push_text;

/// Adds the stated dimensions of a page layout as attributes.
fn push_layout_attributes(out: &mut String, layout: &PageLayout) -> Result<(), AllocError>
    ensures { OnOk result (chars (string_bytes out.new) ≡ chars (string_bytes out.old) ++ flat_map attr_text (layout_attributes layout.now)) }
{
    push_length_stated(out, "fo:page-width", layout.width)?;
    push_length_stated(out, "fo:page-height", layout.height)?;
    push_length_stated(out, "fo:margin-left", layout.left)?;
    push_length_stated(out, "fo:margin-right", layout.right)?;
    push_length_stated(out, "fo:margin-top", layout.top)?;
    push_length_stated(out, "fo:margin-bottom", layout.bottom)
}

/// Whether a page layout states a margin.
fn states_margin(layout: &PageLayout) -> bool
    ensures { result ≡ (is_some layout.now.left || is_some layout.now.right || is_some layout.now.top || is_some layout.now.bottom) }
{
    layout.left.is_some()
        || layout.right.is_some()
        || layout.top.is_some()
        || layout.bottom.is_some()
}

/// Whether a page layout states a dimension.
fn states_dimension(layout: &PageLayout) -> bool
    ensures { result ≡ is_there (layout_attributes layout.now) }
{
    layout.width.is_some() || layout.height.is_some() || states_margin(layout)
}

/// Adds the dimensions of a page layout, where one is stated, as an element.
fn push_dimensions(out: &mut String, layout: &PageLayout) -> Result<(), AllocError>
    ensures { OnOk result (chars (string_bytes out.new) ≡ chars (string_bytes out.old) ++ held_text (codes "style:page-layout") (properties (codes "style:page-layout-properties") (layout_attributes layout.now))) }
{
    if !states_dimension(layout) {
        return push_empty_end(out);
    }
    push_tag_end(out)?;
    push_name(out, "style:page-layout-properties")?;
    push_layout_attributes(out, layout)?;
    push_empty_end(out)?;
    push_end(out, "style:page-layout")
}

/// Adds a page layout.
pub fn push_layout(out: &mut String, layout: &PageLayout) -> Result<(), AllocError>
    ensures { OnOk result (chars (string_bytes out.new) ≡ chars (string_bytes out.old) ++ child_text (layout_element layout.now)) }
{
    push_name(out, "style:page-layout")?;
    push_text(out, "style:name", layout.name.get())?;
    push_dimensions(out, layout)
}
