//! The document that a state stands for.

ghost use Rattle.std.specs.Prelude.{◌≡◌, IfOk};
ghost use Rattle.text_state.specs.State.{document_of};

use crate::rest::{Rest, RestParts};
use doc_model::{Document, List, Style};
use node_array::NodeArray;
use row_body::body_of;
use std::alloc::{AllocError, Global};
use style_tree::StyleTree;

/// The document of these parts, styles and rows, all copied.
pub(crate) fn document_of(
    rest: &Rest,
    styles: &StyleTree,
    rows: &NodeArray,
) -> Result<Document, AllocError>
    ensures { IfOk result (λ doc. doc ≡ document_of rest.now styles.now rows.now) }
{
    let RestParts {
        global,
        lists,
        outline,
        layouts,
        masters,
        variables,
        sequences,
        counting,
    } = rest.get().copy()?;
    let alloc = lists.allocator();
    let defaults = styles.defaults().copy()?;
    let styles = copied_styles(alloc, styles)?;
    let body = body_of(alloc, rows)?;
    Ok(Document {
        global,
        defaults,
        styles,
        lists,
        outline,
        layouts,
        masters,
        variables,
        sequences,
        counting,
        body,
    })
}

// Copies of the styles of a tree, in their order.
fn copied_styles(alloc: Global, tree: &StyleTree) -> Result<List<Style>, AllocError>
    ensures { IfOk result (λ styles. styles ≡ tree.now.styles) }
{
    let mut styles = Vec::with_capacity(alloc, tree.len())?;
    for at in 0..tree.len() {
        styles.push(tree.get(at).copy()?)?;
    }
    Ok(List::from_list(styles))
}
