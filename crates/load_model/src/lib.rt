//! Loading: how a tree of markup is read as a document, as definitions, and the names that are known of OpenDocument.
#![tactic(auto)]

mod element;
mod names;
mod offence;

pub use element::{Attribute, Attributes, Element};
pub use names::{DRAW, FO, KNOWN_KEYS, KNOWN_TAGS, Key, OFFICE, STYLE, TABLE, TEXT, Tag, XLINK};
pub use offence::{TreeOffence, TreeOffenceKind};
