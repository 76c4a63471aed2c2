//! What a draft comes to whose list places have at most ten levels already. Its functions do nothing: they carry laws.
#![tactic(auto)]

mod laws;

pub use laws::{alike_drafts_are_counted_alike, alike_drafts_are_numbered_alike};
