//! The canonical bytes of documents: the one spelling in which a document is written.
#![tactic(auto)]

mod document;
mod paragraph;

pub use document::save;
