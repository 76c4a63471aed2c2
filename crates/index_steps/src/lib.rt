//! The index of names after an edit, from that before it.
#![tactic(auto)]

mod item_name;
mod laws;
mod names;
mod redirect;

pub use laws::indexes_agree_again;
pub use names::{joined_names, split_names, with_name, without_name};
