//! Edits of containers keep the rows of a document sound.
#![tactic(auto)]

mod laws;

pub use laws::{
    joined_rows_stay_sound, set_rows_stay_sound, split_rows_stay_sound, unwrapped_rows_stay_sound,
    wrapped_rows_stay_sound,
};
