//! The program `quill`: runs a script over a document, by the system's files and its two outputs.
#![tactic(auto)]

use quill_io::{FolderShelf, Sink, StdSink};
use quill_top::quill_lone;
use std::alloc::AllocError;
use std::env;
use std::env::Env;
use std::io::ErrorKind;
use std::process::ExitCode;

fn main(rt: HostRuntime) -> ExitCode {
    let mut shelf = FolderShelf::new(&rt);
    let mut out = StdSink::new(rt.stdout());
    let mut diag = StdSink::new(rt.stderr());
    let Ok(words) = words(&rt) else {
        let _ = diag.put(b"no memory\n");
        return ExitCode::from(7);
    };
    let status = quill_lone(rt.alloc(), &words, &mut shelf, &mut out, &mut diag);
    ExitCode::from(status.0)
}

// The words of the command line, without the program's name. Where one of them is no text, they count
// as none, which aren't accepted.
fn words(rt: &(impl Env + AllocGlobal)) -> Result<Vec<String>, AllocError> {
    match env::args(rt) {
        Ok(words) => words.skip(1).collect(rt.alloc()),
        Err(fault) if fault.kind() == ErrorKind::InvalidData => Ok(Vec::new(rt.alloc())),
        Err(_) => Err(AllocError),
    }
}
