//! The styles and their properties, and all that the style parts say, with what is left out in them.
#![tactic(auto)]

mod all_values;
mod properties;
mod rules;
mod style;
mod styles;

pub use all_values::{SheetValues, read_sheet};
pub use properties::{properties_left, style_properties};
pub use rules::attributes_count;
pub use style::style_of;
pub use styles::{ReadStyles, read_styles};
