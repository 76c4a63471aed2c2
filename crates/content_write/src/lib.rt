//! The content of paragraphs as it is written.
//!
//! After an error a beginning of what was asked for may stand at the end of the string.
#![tactic(auto)]

mod content;
mod items_left;
mod pieces;
mod spans;

pub use content::{Content, push_content};
pub use items_left::ItemsLeft;
pub use pieces::push_what;
