//! What is read of the style parts and of the part of masters: the first of each name. Nothing of the tree is copied but names.
#![tactic(auto)]

mod held;
mod named;

pub use held::{InPart, held_by, in_parts, style_parts};
pub use named::{Named, first_named};
