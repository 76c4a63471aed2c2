//! Master pages as they are written, with the paragraphs of their headers and footers.
#![tactic(auto)]

mod items;
mod masters;
mod paragraphs;

pub use masters::{push_master, push_masters_part};
pub use paragraphs::push_head_content;
