//! Reading plain documents: from their canonical bytes to the document, and nothing else.
#![tactic(auto)]

mod body;
mod build;
mod escape;
mod fault;
mod front;
mod load;
mod paragraph;

pub use fault::LoadFault;
pub use load::load_plain;
