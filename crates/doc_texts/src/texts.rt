//! A gathered paragraph.

ghost use Rattle.std.specs.Prelude.{◌≡◌, IfOk};
ghost use Rattle.field_model.specs.Labels.{head_of as par_head};

use doc_model::{Item, Label, Par, ParHead};
use field_model::Gathered;
use run_text::RunText;
use std::alloc::{AllocError, Global};

/// A gathered paragraph.
#[derive(Debug, Drop)]
pub struct ParText {
    /// Where it stands.
    pub place: Gathered,
    /// The paragraph without its items.
    pub head: ParHead,
    /// Its label.
    pub label: Label,
    /// Its items.
    pub items: RunText<Item>,
}

/// A copy of a paragraph without its items.
pub(crate) fn head_of(par: &Par) -> Result<ParHead, AllocError>
    ensures { IfOk result (λ head. head ≡ par_head par.now) }
{
    let style = par.style.copy()?;
    let list = match &par.list {
        Some(place) => Some(place.copy()?),
        None => None,
    };
    Ok(ParHead {
        id: par.id,
        style,
        level: par.level,
        list,
    })
}

/// Copies of items.
pub(crate) fn items_of(alloc: Global, items: &[Item]) -> Result<RunText<Item>, AllocError>
    ensures { IfOk result (λ copies. copies ≡ items.now) }
{
    let mut copies = RunText::new(alloc);
    copies.splice(0, 0, items)?;
    Ok(copies)
}
