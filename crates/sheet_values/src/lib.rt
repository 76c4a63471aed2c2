//! What the style parts say that refers to no name: page layouts, list styles and the outline, with what is left out in them.
#![tactic(auto)]

mod layouts;
mod levels;
mod lists;
mod parts;
mod stated;

pub use layouts::{Layouts, read_layouts};
pub use levels::{LevelsOf, ReadLevels, read_levels};
pub use lists::{ListStyles, Outline, read_list_styles, read_outline};
pub use parts::{children_left, part_attributes, part_count};
pub use stated::{
    first_level, margin, stated_alignment, stated_break, stated_character, stated_display,
    stated_format, stated_keep, stated_length, stated_level, stated_lines, stated_page_start,
    stated_start, stated_text,
};
