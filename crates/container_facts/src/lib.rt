//! What holds of the containers of paragraphs, where no two paragraphs have one number.
#![tactic(auto)]

mod laws;

pub use laws::{containers_are_shared, containers_have_ends, texts_are_containers};
