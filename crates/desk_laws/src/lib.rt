//! What the desk promises, for all states and all commands.
#![tactic(auto)]

mod laws;

pub use laws::{
    changes_are_undone, debt_falls, kept_lines_stay, many_changes_are_undone,
    next_number_never_falls, no_stale_line_enters, nothing_else_is_saved, reached_states_hold,
    refusals_leave_all, settling_ends, stamps_are_past,
};
