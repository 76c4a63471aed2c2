//! The program `rows`: makes the runs of `quill` that the file `runs.txt` lists, and prints how each ends.
//!
//! A line of the list that begins with `quill` is a run, by the words behind it. The line is printed, then what the run
//! puts to the output, then its status, then what it puts to the diagnostics. Every other line is printed as it is.
#![tactic(auto)]

mod words;

use crate::words::words_of;
use quill_io::{FolderShelf, MemSink};
use quill_top::quill_lone;
use std::io::Write;
use std::rt::Files;
use std::{fs, io};

// How many bytes a run may put to the output, and to the diagnostics.
const ROOM: usize = 1_000_000;

fn main(rt: HostRuntime) -> io::Result<()> {
    let list = fs::read_to_string(&rt, "runs.txt")?;
    let mut to = rt.stdout();
    for line in list.lines() {
        writeln!(to, "{line}")?;
        if let Some(words) = line.strip_prefix("quill") {
            run(&rt, words, &mut to)?;
        }
    }
    Ok(())
}

// Makes the run of these words, and prints how it ends. Its sinks fail at their second call.
fn run<W: Write>(rt: &(impl Files + AllocGlobal), words: &str, to: &mut W) -> io::Result<()> {
    let alloc = rt.alloc();
    let words = words_of(alloc, words)?;
    let mut shelf = FolderShelf::new(rt);
    let mut out = MemSink::new(alloc, ROOM, [2].to_vec(alloc)?)?;
    let mut diag = MemSink::new(alloc, ROOM, [2].to_vec(alloc)?)?;
    let status = quill_lone(alloc, &words, &mut shelf, &mut out, &mut diag);
    to.write_all(out.held())?;
    writeln!(to, "status {}", status.0)?;
    to.write_all(diag.held())
}
