//! The desk: a document with its past and its idle work, that answers commands one after another.
#![tactic(auto)]

mod desk;
mod entry;
mod group;
mod live;
mod pages;
mod past;

pub use desk::Desk;
