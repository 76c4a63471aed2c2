//! The content of paragraphs as it is read: what each element is, and what stands in it. Who walks the tree hands each element
//! and each run of characters to these calls, and reads notes by itself.
#![tactic(auto)]

mod alone;
mod known;
mod pushes;
mod roles;

pub use alone::push_alone;
pub use known::Known;
pub use pushes::{push_note, push_run, spans_with};
pub use roles::{Role, role_of};
