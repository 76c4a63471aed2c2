//! Edits of one paragraph as splices of rows, and what they keep of rows.
#![tactic(auto)]

mod laws;

pub use laws::{
    edits_are_splices, edits_keep_rows_sound, edits_of_notes_keep_rows_sound, valid_rows_are_sound,
};
