//! The tree that a document is written as: elements, attributes and characters in the one canonical spelling.
#![tactic(auto)]
