//! The rows of a page with header and footer, and pages as they are printed.
#![tactic(auto)]

mod fields;
mod headers;
mod printing;
mod rows;

pub use printing::print_page;
pub use rows::page_rows;
