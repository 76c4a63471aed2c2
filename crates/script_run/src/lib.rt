//! Scripts over a document: what their commands print.
#![tactic(auto)]

mod run;

pub use run::run_script;
