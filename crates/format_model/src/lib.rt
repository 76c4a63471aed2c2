//! Formatting as definitions: the keys of all paragraphs under a page table, and the rounds in which their lines make pages.
#![tactic(auto)]
