//! What edits of sections come to on rows.
#![tactic(auto)]

mod laws;

pub use laws::{set_rows, unwrapped_rows};
