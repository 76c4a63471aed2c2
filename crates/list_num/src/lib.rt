//! The labels of list items and headings, one paragraph after another in reading order.
#![tactic(auto)]

mod counters;
mod counts;
mod labels;

pub use counts::Counts;

#[cfg(test)]
mod tests;
