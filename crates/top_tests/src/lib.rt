//! Tests over several crates, of what neither a clause nor a run of the program `rows` shows. The library is empty.
#![tactic(auto)]

#[cfg(test)]
mod edits;
#[cfg(test)]
mod ends;
#[cfg(test)]
mod lines;
#[cfg(test)]
mod replies;
#[cfg(test)]
mod texts;
