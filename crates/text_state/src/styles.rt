//! The style tree of a document.

ghost use Rattle.std.specs.Prelude.{◌≡◌, ◌≢◌, AllPairs, IfOk};

use doc_model::{Props, Style};
use std::alloc::{AllocError, Global};
use style_tree::StyleTree;

/// The tree of a document's default style of paragraphs and its styles, of which no two of one family have one name.
pub fn styles_of(alloc: Global, defaults: &Props, styles: &[Style]) -> Result<StyleTree, AllocError>
    requires names { AllPairs (λ left right. left.family ≡ right.family → left.name ≢ right.name) styles.now }
    ensures { IfOk result (λ tree. tree ≡ record { defaults = defaults.now; styles = styles.now }) }
{
    let mut tree = StyleTree::new(alloc, defaults.copy()?)?;
    for style in styles {
        let end = tree.len();
        tree.put(end, style.copy()?)?;
    }
    Ok(tree)
}
