//! Why a style is not changed.

use doc_model::Name;
use std::alloc::AllocError;
use thiserror::Error;

/// Why a style is not defined, removed or changed. Nothing has changed then.
#[derive(Debug, Drop, PartialEq, Eq, Error)]
pub enum StyleRefusal {
    /// A style of this name is missing in the family.
    #[error("there is no such style")]
    NoStyle(Name),
    /// A style of this name is there already, in the same family.
    #[error("there is such a style already")]
    Taken(Name),
    /// The style of this name would be its own ancestor.
    #[error("the style would be its own ancestor")]
    StyleLoop(Name),
    /// There was no memory.
    #[error("out of memory")]
    NoMemory,
}

impl From<AllocError> for StyleRefusal {
    ghost use Rattle.std.specs.Prelude.{◌≡◌};
    ghost use Rattle.style_tree.specs.declared.refusal.StyleRefusal.TheVariants.{NoMemory};

    ghost from_gives = { λ _ e. e ≡ NoMemory };

    fn from(_error: AllocError) -> StyleRefusal {
        StyleRefusal::NoMemory
    }
}
