//! Places paragraphs on pages, one after another.
#![tactic(auto)]

mod breaker;
mod closing;
mod contents;
mod ends;
mod finish;
mod frame;
mod frames;
mod heads;
mod names;
mod notes;
mod plan;
mod rows;
mod sets;
mod table;
mod turn;

pub use plan::Plan;
