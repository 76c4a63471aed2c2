//! Why a group of edits was not made.

use doc_model::Refusal;
use std::alloc::AllocError;
use thiserror::Error;

/// Why a group of edits was not made.
#[derive(Debug, Drop, PartialEq, Eq, Error)]
pub enum EditFault {
    /// An edit is refused, and so the whole group: how many of its edits stand before it, and why.
    #[error("edit {index} is refused: {why}")]
    Refused { index: u32, why: Refusal },
    /// There was no memory.
    #[error("out of memory")]
    NoMemory,
}

impl From<AllocError> for EditFault {
    ghost use Rattle.std.specs.Prelude.{◌≡◌};
    ghost use Rattle.edit_ops.specs.declared.fault.EditFault.TheVariants.{NoMemory};

    ghost from_gives = { λ _ e. e ≡ NoMemory };

    fn from(_error: AllocError) -> EditFault {
        EditFault::NoMemory
    }
}
