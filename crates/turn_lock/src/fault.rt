//! Why a call was refused.
use std::alloc::AllocError;
use thiserror::Error;

#[derive(Debug, Drop, PartialEq, Eq, Error)]
pub enum CallFault {
    /// The journal has as many entries as the lock allows, which is this many.
    #[error("the journal has its {0} entries")]
    JournalFull(u32),
    #[error("no memory")]
    NoMemory,
}

#[derive(Debug, Drop, PartialEq, Eq, Error)]
pub enum TryFault {
    /// The journal has as many entries as the lock allows, which is this many.
    #[error("the journal has its {0} entries")]
    JournalFull(u32),
    /// Another seat has the turn: its number plus 1.
    #[error("the turn is held: {0}")]
    Held(u32),
    #[error("no memory")]
    NoMemory,
}

impl From<AllocError> for CallFault {
    ghost use Rattle.std.specs.Prelude.{◌≡◌};
    ghost use Rattle.turn_lock.specs.declared.fault.CallFault.TheVariants.{NoMemory};

    ghost from_gives = { λ _ e. e ≡ NoMemory };

    fn from(_: AllocError) -> CallFault {
        CallFault::NoMemory
    }
}

impl From<AllocError> for TryFault {
    ghost use Rattle.std.specs.Prelude.{◌≡◌};
    ghost use Rattle.turn_lock.specs.declared.fault.TryFault.TheVariants.{NoMemory};

    ghost from_gives = { λ _ e. e ≡ NoMemory };

    fn from(_: AllocError) -> TryFault {
        TryFault::NoMemory
    }
}
