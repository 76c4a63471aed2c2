//! The desk as a machine: its commands and replies, what a script of them prints, and the words of both.
#![tactic(auto)]

mod command;
mod reply;
mod script;

pub use command::Command;
pub use reply::Reply;
pub use script::{Numbered, ScriptCommand};

#[cfg(test)]
mod tests;
