//! Where a tree goes against what is asked of one: its root, its text, the style parts and the part of masters, and tables. Offences that want more than these are found elsewhere.
#![tactic(auto)]

mod limits;
mod root;
mod tables;
mod texts;

pub use limits::{layout_beyond, list_beyond, master_beyond, style_beyond};
pub use root::{wrong_mimetype, wrong_root};
pub use tables::table_places;
pub use texts::misplaced_texts;
