//! The key of any paragraph, from what is known of it: all that its lines depend on.
#![tactic(auto)]

mod keys;
mod laws;
mod parts;
mod shown;

pub use field_model::Shown;
pub use keys::key_of;
pub use laws::displays_say_what_styles_state;
pub use parts::{KeyParts, SpanDisplay};
pub use shown::is_shown_in;

#[cfg(test)]
mod tests;
