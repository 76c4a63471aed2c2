//! The desk's language: scripts of commands as they are read, and replies as they are printed.
#![tactic(auto)]

mod commands;
mod cuts;
mod edits;
mod escapes;
mod names;
mod numbers;
mod operations;
mod pages;
mod printing;
mod quotes;
mod refusals;
mod replies;
mod script;
mod texts;

pub use operations::print_op;
pub use replies::{push_no_job, push_reply, push_settled};
pub use script::{ScriptFault, read_script};
