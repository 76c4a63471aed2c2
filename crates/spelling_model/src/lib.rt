//! The canonical bytes of a document: the one spelling in which it is written.
#![tactic(auto)]

mod pieces;

pub use pieces::{
    BODY, EMPTY_PARAGRAPH, PARAGRAPH, PARAGRAPH_END, ROOT, ROOT_END, SPACE, SPACES, SPACES_END,
    TAIL,
};
