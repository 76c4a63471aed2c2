//! The edits of a document as definitions: what each operation makes of it, why it is refused, and what groups of them come to.
#![tactic(auto)]

mod laws;

pub use laws::{
    halves_are_joined, inserted_text_is_deleted, large_groups_are_refused, numbers_never_fall,
    unknown_paragraphs_come_first, wrapped_blocks_are_unwrapped,
};
