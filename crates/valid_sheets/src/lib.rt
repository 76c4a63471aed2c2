//! The styles, lists, page layouts and masters that are read from a file are named apart, refer to what is there, and have valid levels,
//! headers and footers.
//! Laws of definitions; the functions do nothing.
#![tactic(auto)]

mod laws;

pub use laws::{
    headers_are_valid, lists_are_valid, names_are_apart, names_are_legal, references_are_there,
};
