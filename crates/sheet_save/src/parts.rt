//! The parts of styles.

ghost use Rattle.std.specs.Prelude.{◌≡◌, ◌==◌, ◌||◌, ◌++◌, not, true, false, length, chars, string_bytes, codes, OnOk};
ghost use Rattle.sheet_write.specs.Parts.{style_nodes, styles_nodes, automatic_nodes};
ghost use Rattle.spelling_model.specs.Spelling.{is_there};
ghost use Rattle.tree_text.specs.Writing.{content_text};
ghost use Rattle.written_model.specs.Elements.{part};
ghost use Rattle.written_model.specs.Styles.{property_elements};

use doc_model::{ListStyle, PageLayout};
use sheet_write::{
    is_among, push_default_style, push_layouts, push_list_styles, push_outline, push_part_end,
    push_part_start, push_style_among, states_something,
};
use std::alloc::AllocError;
use style_tree::StyleTree;

/// Whether there is a style among the automatic ones, or among the others.
fn has_style(tree: &StyleTree, automatic: bool) -> bool
    ensures { result ≡ is_there (style_nodes automatic tree.now.styles) }
{
    for at in 0..tree.len() {
        if is_among(tree.get(at), automatic) {
            return true;
        }
    }
    false
}

/// Adds the automatic ones of the styles, or the others.
fn push_styles(out: &mut String, tree: &StyleTree, automatic: bool) -> Result<(), AllocError>
    ensures { OnOk result (chars (string_bytes out.new) ≡ chars (string_bytes out.old) ++ content_text (style_nodes automatic tree.now.styles)) }
{
    for at in 0..tree.len() {
        push_style_among(out, tree.get(at), automatic)?;
    }
    Ok(())
}

/// Whether the part of the styles that aren't automatic holds something.
fn has_styles_part(tree: &StyleTree, outline: &ListStyle, lists: &[ListStyle]) -> bool
    ensures { result ≡ (is_there (property_elements tree.now.defaults) || is_there (style_nodes false tree.now.styles) || not (length outline.now.levels == 0) || not (length lists.now == 0)) }
{
    states_something(tree.defaults())
        || has_style(tree, false)
        || !outline.levels.get().is_empty()
        || !lists.is_empty()
}

/// Adds the part of the styles that aren't automatic, with the default style, the outline and the list styles, where it
/// holds something.
pub fn push_styles_part(
    out: &mut String,
    tree: &StyleTree,
    outline: &ListStyle,
    lists: &[ListStyle],
) -> Result<(), AllocError>
    ensures { OnOk result (chars (string_bytes out.new) ≡ chars (string_bytes out.old) ++ content_text (part (codes "office:styles") (styles_nodes tree.now.defaults tree.now.styles outline.now lists.now))) }
{
    let holds = has_styles_part(tree, outline, lists);
    push_part_start(out, "office:styles", holds)?;
    push_default_style(out, tree.defaults())?;
    push_styles(out, tree, false)?;
    push_outline(out, outline)?;
    push_list_styles(out, lists)?;
    push_part_end(out, "office:styles", holds)
}

/// Whether the part of the automatic styles holds something.
fn has_automatic_part(tree: &StyleTree, layouts: &[PageLayout]) -> bool
    ensures { result ≡ (is_there (style_nodes true tree.now.styles) || not (length layouts.now == 0)) }
{
    has_style(tree, true) || !layouts.is_empty()
}

/// Adds the part of the automatic styles, with the page layouts, where it holds something.
pub fn push_automatic_part(
    out: &mut String,
    tree: &StyleTree,
    layouts: &[PageLayout],
) -> Result<(), AllocError>
    ensures { OnOk result (chars (string_bytes out.new) ≡ chars (string_bytes out.old) ++ content_text (part (codes "office:automatic-styles") (automatic_nodes tree.now.styles layouts.now))) }
{
    let holds = has_automatic_part(tree, layouts);
    push_part_start(out, "office:automatic-styles", holds)?;
    push_styles(out, tree, true)?;
    push_layouts(out, layouts)?;
    push_part_end(out, "office:automatic-styles", holds)
}
