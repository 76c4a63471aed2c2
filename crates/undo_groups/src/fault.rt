//! Why a call was refused.
use std::alloc::{AllocError, AllocFailed};
use std::fmt::Display;
use thiserror::Error;

/// Why an operation was not expanded.
#[derive(Debug, Drop, Error)]
#[error_bound(Why: Display)]
pub enum ExpandFault<Why> {
    /// The target refuses the operation.
    #[error("refused: {0}")]
    Refused(Why),
    /// There was no memory.
    #[error("out of memory")]
    NoMemory,
}

impl<Why> From<AllocError> for ExpandFault<Why> {
    ghost use Rattle.std.specs.Prelude.{◌≡◌};
    ghost use Rattle.undo_groups.specs.declared.fault.ExpandFault.TheVariants.{NoMemory};

    ghost from_gives = { λ _ e. e ≡ NoMemory };

    fn from(_error: AllocError) -> ExpandFault<Why> {
        ExpandFault::NoMemory
    }
}

impl<Why, T: Drop> From<AllocFailed<T>> for ExpandFault<Why> {
    ghost use Rattle.std.specs.Prelude.{◌≡◌};
    ghost use Rattle.undo_groups.specs.declared.fault.ExpandFault.TheVariants.{NoMemory};

    ghost from_gives = { λ _ e. e ≡ NoMemory };

    fn from(_error: AllocFailed<T>) -> ExpandFault<Why> {
        ExpandFault::NoMemory
    }
}

/// Why a group was not run. The target and the lists are as before.
#[derive(Debug, Drop, Error)]
#[error_bound(Why: Display)]
pub enum GroupFault<Why> {
    /// The operation at this place, counted from 0, is the first that is refused.
    #[error("operation {index} is refused: {why}")]
    Refused { index: u32, why: Why },
    /// There was no memory.
    #[error("out of memory")]
    NoMemory,
}

impl<Why> From<AllocError> for GroupFault<Why> {
    ghost use Rattle.std.specs.Prelude.{◌≡◌};
    ghost use Rattle.undo_groups.specs.declared.fault.GroupFault.TheVariants.{NoMemory};

    ghost from_gives = { λ _ e. e ≡ NoMemory };

    fn from(_error: AllocError) -> GroupFault<Why> {
        GroupFault::NoMemory
    }
}

/// Why nothing was undone. The target and the lists are as before.
#[derive(Debug, Drop, PartialEq, Eq, Error)]
pub enum UndoFault {
    /// No earlier group is kept.
    #[error("nothing to undo")]
    NothingToUndo,
    /// There was no memory.
    #[error("out of memory")]
    NoMemory,
}

impl From<AllocError> for UndoFault {
    ghost use Rattle.std.specs.Prelude.{◌≡◌};
    ghost use Rattle.undo_groups.specs.declared.fault.UndoFault.TheVariants.{NoMemory};

    ghost from_gives = { λ _ e. e ≡ NoMemory };

    fn from(_error: AllocError) -> UndoFault {
        UndoFault::NoMemory
    }
}

/// Why nothing was redone. The target and the lists are as before.
#[derive(Debug, Drop, PartialEq, Eq, Error)]
pub enum RedoFault {
    /// Nothing was undone since the last group ran.
    #[error("nothing to redo")]
    NothingToRedo,
    /// There was no memory.
    #[error("out of memory")]
    NoMemory,
}

impl From<AllocError> for RedoFault {
    ghost use Rattle.std.specs.Prelude.{◌≡◌};
    ghost use Rattle.undo_groups.specs.declared.fault.RedoFault.TheVariants.{NoMemory};

    ghost from_gives = { λ _ e. e ≡ NoMemory };

    fn from(_error: AllocError) -> RedoFault {
        RedoFault::NoMemory
    }
}
