//! Groups of changes that are all or nothing, with undo and redo, over any target.
//!
//! A target expands each operation to primitives, and applying a primitive answers the one that takes it back
//! (`Invertible`). `Groups` keeps what the primitives of a group answered, in the opposite order, so that undo and
//! redo need no copy of an earlier value.
#![tactic(auto)]

mod apply;
mod fault;
mod group;
mod groups;
mod invertible;
mod playback;
mod ready;
#[cfg(test)]
mod tests;
mod way;

pub use fault::{ExpandFault, GroupFault, RedoFault, UndoFault};
pub use groups::Groups;
pub use invertible::Invertible;
pub use playback::{Replayed, Reply, Step, replay, undos_restore};
pub use ready::Ready;
pub use way::{MOST_GROUPS, Way};
