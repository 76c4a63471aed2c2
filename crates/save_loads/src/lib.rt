//! What is saved is loaded again. A law of definitions; the function does nothing.
#![tactic(auto)]

mod laws;

pub use laws::saved_documents_are_loaded;
