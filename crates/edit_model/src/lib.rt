//! Edits as definitions: the document that they make, their refusals, and the past that they leave behind.
#![tactic(auto)]
