//! What edits make of the items of a paragraph. Each call leaves the items that it reads, and answers new ones.
#![tactic(auto)]

mod copied;
mod parts;
mod ranges;
mod texts;

pub use parts::{items_between, joined};
pub use ranges::{with_spans, without_range};
pub use texts::{with_item, with_text};
