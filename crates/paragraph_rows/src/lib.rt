//! What edits of one paragraph come to on the rows of a body.
#![tactic(auto)]

mod laws;

pub use laws::{
    changed_paragraphs_take_their_place, changes_leave_rows_flat,
    changes_of_paragraphs_are_changes_of_rows, edits_of_heads_change_heads,
    edits_of_items_change_items, edits_of_notes_change_note_rows, one_row_is_spliced,
    valid_documents_have_flat_rows,
};
