//! A file as it is saved: the canonical bytes of its document, and the lines that tell what was left out of it, or why it isn't loaded.
#![tactic(auto)]

mod lines;
mod save;

pub use lines::{offence_line, report_line};
pub use save::{Saved, save_file};
