//! Edits of plain documents: the document that a group of inserts and deletes makes, or its first refusal.
#![tactic(auto)]

mod draft;
mod fault;
mod group;
mod items;

pub use fault::EditFault;
pub use group::edited_by_group;
