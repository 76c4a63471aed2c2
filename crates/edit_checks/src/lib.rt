//! Why an edit of a text state is refused, one function a cause.
#![tactic(auto)]

mod ends;
mod guards;
mod levels;
mod live;
mod ranges;
mod typed;

pub use ends::{item_count, past_end};
pub use guards::protected_paragraph;
pub use levels::bad_level;
pub use live::{is_live, no_paragraph};
pub use ranges::bad_range_of_items;
pub use typed::bad_char;
