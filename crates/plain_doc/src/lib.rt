//! What the definitions on documents come to at plain documents, which are known by the texts of their paragraphs.
#![tactic(auto)]

mod laws;

pub use laws::{plain_edit, plain_limits, plain_spelling, plain_validity};
