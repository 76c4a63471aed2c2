//! Loading: the bytes of a flat OpenDocument text as a document, with what is left out of it, or their first offence.
#![tactic(auto)]

mod declarations;
mod document;
mod faults;
mod left;
mod loading;
mod offence;
mod outcome;
mod parts;
mod root;
mod text;

pub use loading::load;
pub use offence::{LoadFault, Offence, OffenceKind};
