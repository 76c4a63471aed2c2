//! A document as it is written: the declaration, the root with its namespaces, the parts that hold styles, and the body.
//!
//! What stands before the parts and behind the body has calls of its own, for who has a document in rows. After an error a
//! beginning of what was asked for may stand at the end of the string.
#![tactic(auto)]

mod document;
mod root;

pub use document::{push_body, push_document, push_parts, save};
pub use root::{push_document_end, push_document_start};
