//! Which limit of a document an edit passes, told without measuring the document anew.
#![tactic(auto)]

mod laws;

pub use laws::{heads_pass_no_limit, texts_pass_item_limits};
