//! Why reading a construct that takes memory failed.

use markup_parts::Stop;
use std::alloc::{AllocError, AllocFailed};
use thiserror::Error;

/// Why a construct wasn't read.
#[derive(Debug, Clone, Copy, PartialEq, Eq, Error)]
pub enum Fault {
    /// Reading stopped.
    #[error("{0}")]
    Stopped(Stop),
    /// Memory was refused.
    #[error("memory was refused")]
    NoMemory,
}

impl From<Stop> for Fault {
    ghost use Rattle.std.specs.Prelude.{◌≡◌};
    ghost use Rattle.markup_tags.specs.declared.fault.Fault.TheVariants.{Stopped};

    ghost from_gives = { λ stop e. e ≡ Stopped stop };

    fn from(stop: Stop) -> Fault {
        Fault::Stopped(stop)
    }
}

impl From<AllocError> for Fault {
    ghost use Rattle.std.specs.Prelude.{◌≡◌};
    ghost use Rattle.markup_tags.specs.declared.fault.Fault.TheVariants.{NoMemory};

    ghost from_gives = { λ _ e. e ≡ NoMemory };

    fn from(_e: AllocError) -> Fault {
        Fault::NoMemory
    }
}

impl<T: Drop> From<AllocFailed<T>> for Fault {
    ghost use Rattle.std.specs.Prelude.{◌≡◌};
    ghost use Rattle.markup_tags.specs.declared.fault.Fault.TheVariants.{NoMemory};

    ghost from_gives = { λ _ e. e ≡ NoMemory };

    fn from(_e: AllocFailed<T>) -> Fault {
        Fault::NoMemory
    }
}
