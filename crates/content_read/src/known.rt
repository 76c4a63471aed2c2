//! What is known as a text is read.

use kept_names::Kept;
use sheet_names::Names;

/// What is known as a text is read: the names that can be referred to, and what is kept of what has a name.
#[derive(Clone, Copy)]
pub struct Known<'a> {
    /// The names that can be referred to.
    pub names: &'a Names,
    /// What is kept of what has a name of its own.
    pub kept: &'a Kept,
}
