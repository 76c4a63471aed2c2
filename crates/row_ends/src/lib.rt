//! Rows behind a paragraph's row: where those of its notes end, and copies of them.
#![tactic(auto)]

mod copies;
mod counts;
mod ends;

pub use copies::push_rows;
pub use counts::note_count;
pub use ends::behind_ends;
