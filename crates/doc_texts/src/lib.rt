//! The paragraphs of a document, laid flat with their labels.
#![tactic(auto)]

mod places;
mod reader;
mod texts;

pub use places::{BodyPlace, body_places};
pub use reader::texts_of;
pub use texts::ParText;
