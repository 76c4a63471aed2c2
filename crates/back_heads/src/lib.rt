//! The paragraphs of headers and footers are read back. Laws of definitions; the functions do nothing.
#![tactic(auto)]

mod laws;

pub use laws::{head_paragraphs_are_read_back, headers_are_read_back};
