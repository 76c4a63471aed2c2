//! What holds of an edit that isn't refused.
#![tactic(auto)]

mod laws;

pub use laws::{allowed_edits_meet_what_is_asked, allowed_edits_stand_together};
