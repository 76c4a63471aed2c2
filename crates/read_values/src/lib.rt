//! The values of attributes, read. Nothing here takes memory.
#![tactic(auto)]

mod attributes;
mod lengths;
mod numbers;
mod pages;
mod readings;
mod rules;
mod tables;
mod texts;

pub use attributes::{attributes_left, is_read, value_of};
pub use lengths::length;
pub use numbers::{heading_level, is_number, level, line_count, number};
pub use pages::{page_adjust, page_start};
pub use readings::Reading;
pub use rules::{field_rules, layout_rules, paragraph_rules, text_rules};
pub use tables::{
    alignment, break_at, chapter_display, display, family, keep, note_class, number_format,
    page_select, reference_form, sequence_form, truth,
};
pub use texts::{name, name_or_none, one_character, own_name};

#[cfg(test)]
mod tests;
