//! The styles that are kept, and the names that can be referred to.
#![tactic(auto)]

mod family;
mod kept_styles;
mod names;
mod sheet;
mod style_names;

pub use family::{StyleKey, family_of, style_key};
pub use kept_styles::{KeptStyles, first_styles};
pub use names::{Names, is_empty};
pub use sheet::{Sheet, sheet_of};
pub use style_names::StyleNames;
