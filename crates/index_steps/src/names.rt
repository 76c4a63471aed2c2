//! The index after edits of names, and of paragraphs that have names.

ghost use Rattle.std.specs.Prelude.{◌≡◌, ◌≤◌, ◌&&◌, not, ℕ, false, List, Some, None, length, take, drop, IfOk};
ghost use Rattle.std.specs.Arc.{arc_value};
ghost use Rattle.name_index.specs.declared.names.NameKind.{NameKind};
ghost use Rattle.name_index.specs.Names.{found, Sets};
ghost use Rattle.names_change.specs.Leading.{have_name, leads_to, Redirects};

use crate::redirect::redirect_range;
use doc_model::{Item, Name, ParId};
use name_index::{NameIndex, NameKind};
use run_text::RunText;
use std::alloc::{AllocError, Global};
use std::sync::Arc;

/// The index with a name that leads to a paragraph, wherever it led before.
pub fn with_name(
    alloc: Global,
    names: &Arc<NameIndex>,
    kind: NameKind,
    name: &Name,
    par: ParId,
) -> Result<Arc<NameIndex>, AllocError>
    ensures { IfOk result (λ new. Sets (arc_value names.now) (arc_value new) kind name.now (Some par)) }
{
    let mut index = names.copy()?;
    index.add(kind, name, par)?;
    Ok(Arc::new(alloc, index)?)
}

/// The index with a name that leads nowhere.
pub fn without_name(
    alloc: Global,
    names: &Arc<NameIndex>,
    kind: NameKind,
    name: &Name,
) -> Result<Arc<NameIndex>, AllocError>
    ensures { IfOk result (λ new. Sets (arc_value names.now) (arc_value new) kind name.now None) }
{
    let mut index = names.copy()?;
    index.drop_name(kind, name);
    Ok(Arc::new(alloc, index)?)
}

/// The index where the names of some items lead to the paragraph that takes them up.
pub fn joined_names(
    alloc: Global,
    names: &Arc<NameIndex>,
    items: &RunText<Item>,
    from: ParId,
    to: ParId,
) -> Result<Arc<NameIndex>, AllocError>
    ensures { IfOk result (λ new. Redirects (λ kind name. have_name kind name items.now) from to (arc_value names.now) (arc_value new)) }
{
    let mut index = names.copy()?;
    redirect_range(&mut index, items, 0, items.len(), from, to)?;
    Ok(Arc::new(alloc, index)?)
}

/// The index where the names of the items behind a place lead to a new paragraph, but for those that an item before it has.
pub fn split_names(
    alloc: Global,
    names: &Arc<NameIndex>,
    items: &RunText<Item>,
    at: usize,
    from: ParId,
    to: ParId,
) -> Result<Arc<NameIndex>, AllocError>
    requires within { at ≤ length items.now }
    requires new { (kind : NameKind) (name : List ℕ) → leads_to to (found (arc_value names.now) kind name) ≡ false }
    ensures { IfOk result (λ new. Redirects (λ kind name. have_name kind name (drop at items.now) && not (have_name kind name (take at items.now))) from to (arc_value names.now) (arc_value new)) }
{
    let mut index = names.copy()?;
    redirect_range(&mut index, items, at, items.len(), from, to)?;
    redirect_range(&mut index, items, 0, at, to, from)?;
    Ok(Arc::new(alloc, index)?)
}
