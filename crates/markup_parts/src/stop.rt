//! Why reading a construct stopped.

use thiserror::Error;

/// Why a construct wasn't read.
#[derive(Debug, Clone, Copy, PartialEq, Eq, Error)]
pub enum Stop {
    /// No construct can go on as the text does.
    #[error("no construct goes on as the text does")]
    Broken,
    /// The text ends inside a construct.
    #[error("the text ends inside a construct")]
    Cut,
    /// A reference names no legal character.
    #[error("a reference names no legal character")]
    Refused,
}
