//! The parts of a document that hold styles, written from the styles of a tree.
#![tactic(auto)]

mod parts;

pub use parts::{push_automatic_part, push_styles_part};
