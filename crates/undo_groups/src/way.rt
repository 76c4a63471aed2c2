//! The three ways a target goes.

/// How many earlier groups are kept: a run past them drops the oldest.
pub const MOST_GROUPS: usize = 256;

/// What a step does.
#[derive(Clone, Copy, Debug, PartialEq, Eq)]
pub enum Way {
    /// It runs a new group.
    Run,
    /// It goes back to the last earlier value.
    Undo,
    /// It goes on to the value undone last.
    Redo,
}
