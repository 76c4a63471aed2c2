//! The constructs of markup, each read from the front of a text, after the productions of XML 1.0.
//!
//! A reader answers what the construct says and the text behind it, or why it stopped: no construct can go on as the text
//! does, the text ends inside one, or a reference names no legal character.
#![tactic(auto)]

mod chars;
mod literals;
mod names;
mod references;
mod skipped;
mod stop;
mod text;

pub use chars::{is_legal, is_space};
pub use literals::literal;
pub use names::name;
pub use references::reference;
pub use skipped::{Allowed, cdata, comment, up_to};
pub use stop::Stop;
pub use text::{Class, expect, first, is_nothing, is_word, run};

#[cfg(test)]
mod tests;
