//! What rounds read of styles, masters and layouts.
#![tactic(auto)]

mod columns;
mod displays;

pub use columns::{columns_at, stated_master};
pub use displays::displays_of;
