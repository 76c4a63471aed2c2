//! The state of a document that is edited: its body as rows.
#![tactic(auto)]

mod bare;
mod body_rows;
mod document;
mod laws;
mod names;
mod places;
mod rest;
mod section_places;
mod state;
mod styles;

pub use body_rows::array_of;
pub use laws::names_are_declared_in_parts;
pub use names::names_of_document;
pub use rest::{Rest, RestParts};
pub use state::TextState;
pub use styles::styles_of;
