//! Names that lead to another paragraph.

ghost use Rattle.std.specs.Prelude.{◌≡◌, ◌≤◌, ◌∷◌, [], length, OnOk};
ghost use Rattle.std.specs.List.{between};
ghost use Rattle.name_index.specs.Names.{is_same_name};
ghost use Rattle.names_change.specs.Leading.{have_name, Redirects};

use crate::item_name::name_of;
use doc_model::{Item, Name, ParId};
use name_index::{NameIndex, NameKind};
use run_text::RunText;
use std::alloc::AllocError;

/// Makes the names of items that lead to one paragraph lead to another.
fn redirect(index: &mut NameIndex, items: &[Item], from: ParId, to: ParId) -> Result<(), AllocError>
    ensures { OnOk result (Redirects (λ kind name. have_name kind name items.now) from to index.old index.new) }
{
    for item in items {
        redirect_item(index, item, from, to)?;
    }
    Ok(())
}

// The same for the name of an item, if it has one.
fn redirect_item(
    index: &mut NameIndex,
    item: &Item,
    from: ParId,
    to: ParId,
) -> Result<(), AllocError>
    ensures { OnOk result (Redirects (λ kind name. have_name kind name (item.now ∷ [])) from to index.old index.new) }
{
    match name_of(item) {
        Some((kind, name)) => redirect_name(index, kind, name, from, to),
        None => Ok(()),
    }
}

// The same for a name.
fn redirect_name(
    index: &mut NameIndex,
    kind: NameKind,
    name: &Name,
    from: ParId,
    to: ParId,
) -> Result<(), AllocError>
    ensures { OnOk result (Redirects (λ other_kind other. is_same_name kind name.now other_kind other) from to index.old index.new) }
{
    match index.find(kind, name) {
        Some(par) => {
            if par.0 == from.0 {
                return index.add(kind, name, to);
            }
            Ok(())
        }
        None => Ok(()),
    }
}

/// The same for a range of items.
pub(crate) fn redirect_range(
    index: &mut NameIndex,
    items: &RunText<Item>,
    start: usize,
    end: usize,
    from: ParId,
    to: ParId,
) -> Result<(), AllocError>
    requires in_order { start ≤ end }
    requires in_range { end ≤ length items.now }
    ensures { OnOk result (Redirects (λ kind name. have_name kind name (between start end items.now)) from to index.old index.new) }
{
    let (front, rear) = items.slice(start, end);
    redirect(index, front, from, to)?;
    redirect(index, rear, from, to)
}
