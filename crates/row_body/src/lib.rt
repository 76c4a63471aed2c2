//! The body that rows stand for: its blocks, read from the last row to the first.
#![tactic(auto)]

mod body;
mod level;
mod texts;

pub use body::body_of;
