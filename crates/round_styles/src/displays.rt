//! The text styles that state whether they are shown.

ghost use Rattle.std.specs.Prelude.{◌≡◌, ◌++◌, option_to_list, IfOk, OnOk};
ghost use Rattle.doc_model.specs.declared.style.Family.TheVariants as family;
ghost use Rattle.style_model.specs.Lineage.{is_same_family};
ghost use Rattle.key_parts.specs.Displays.{display_of, displays_of as all_displays};

use doc_model::{Family, List, Style};
use key_parts::SpanDisplay;
use std::alloc::{AllocError, Global};
use style_tree::StyleTree;

/// The text styles that state, themselves or by an ancestor, whether they are shown, in the order of the styles.
pub fn displays_of(alloc: Global, styles: &StyleTree) -> Result<List<SpanDisplay>, AllocError>
    ensures { IfOk result (λ displays. displays ≡ all_displays styles.now.styles) }
{
    let mut displays = List::new(alloc);
    for at in 0..styles.len() {
        push_display(&mut displays, styles, styles.get(at))?;
    }
    Ok(displays)
}

/// Adds a style, if it is such a one.
fn push_display(
    displays: &mut List<SpanDisplay>,
    styles: &StyleTree,
    style: &Style,
) -> Result<(), AllocError>
    ensures { OnOk result (displays.new ≡ displays.old ++ option_to_list (display_of styles.now.styles style.now)) }
{
    if !is_text(style.family) {
        return Ok(());
    }
    let stated = styles.stated(Family::Text, &style.name)?;
    match stated.props.display {
        Some(is_shown) => displays.push(SpanDisplay {
            style: style.name.copy()?,
            is_shown,
        }),
        None => Ok(()),
    }
}

/// Whether a family is that of text.
fn is_text(of: Family) -> bool
    ensures { result ≡ is_same_family of family.Text }
{
    match of {
        Family::Text => true,
        Family::Paragraph => false,
        Family::Section => false,
    }
}
