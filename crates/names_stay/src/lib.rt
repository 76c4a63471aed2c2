//! Edits that leave every name where it is.
#![tactic(auto)]

mod laws;

pub use laws::{changes_leave_names, edits_leave_names};
