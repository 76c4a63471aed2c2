//! Why a document was not loaded.

use std::alloc::AllocError;
use thiserror::Error;

/// Why bytes were not loaded as a document.
#[derive(Debug, Drop, PartialEq, Eq, Error)]
pub enum LoadFault {
    /// These bytes are no plain document's canonical bytes.
    #[error("not the canonical bytes of a plain document")]
    NotPlain,
    /// There was no memory.
    #[error("out of memory")]
    NoMemory,
}

impl From<AllocError> for LoadFault {
    ghost use Rattle.std.specs.Prelude.{◌≡◌};
    ghost use Rattle.fodt_read.specs.declared.fault.LoadFault.TheVariants.{NoMemory};

    ghost from_gives = { λ _ e. e ≡ NoMemory };

    fn from(_error: AllocError) -> LoadFault {
        LoadFault::NoMemory
    }
}
