//! Why a run has no text that was put, and how that is told.
ghost use Rattle.std.specs.Prelude.{◌≡◌, ℕ, ◌≤◌, List, ◌++◌, codes, string_bytes, IfOk};
ghost use Rattle.std.specs.Option.{option_map};
ghost use Rattle.quill_top.specs.Stop.{bad_line};
ghost use Rattle.quill_top.specs.Answer.{Reports, Tells};
ghost use Rattle.quill_top.specs.Ending.{fault_stop, stop_of, IsTold};

use crate::lone::Status;
use doc_load::{LoadFault, Offence};
use file_save::offence_line;
use quill_io::Sink;
use std::alloc::{AllocError, Global};

/// Why a run has no text that was put.
#[derive(Clone, Copy, Debug)]
pub(crate) enum Ending<'a> {
    /// The words aren't accepted.
    Usage,
    /// FILE isn't what a plain document is written as.
    NotPlain,
    /// FILE has this offence.
    Refused(Offence),
    /// The script's line of this number, from 1, is the first that isn't a command.
    BadLine(u32),
    /// There is no file of this name.
    Absent(&'a str),
    /// The shelf failed to give the file of this name.
    ShelfFault(&'a str),
    /// The output failed to take the text.
    OutputFault,
    /// There is no memory.
    NoMemory,
    /// The file of this name has more bytes than are read.
    TooLong(&'a str),
}

/// Puts the line of an ending to `diag`, and answers its status.
///
/// A line that names something takes memory. Where there is none for it, the run ends for that.
pub(crate) fn tell<D: Sink>(alloc: Global, ending: Ending, diag: &mut D) -> Status
    ensures told { IsTold (stop_of ending.entry) result.0
        (D.held diag.old) (D.held diag.new) (D.faults diag.old) (D.faults diag.new) }
    ensures never_falls { D.faults diag.old ≤ D.faults diag.new }
    ensures usage { ending.entry ≡ Ending.Usage → result.0 ≡ 2 }
    ensures output { ending.entry ≡ Ending.OutputFault → result.0 ≡ 6 }
{
    match ending {
        Ending::NotPlain => say(diag, "refused: plain at 0\n", 1),
        Ending::Refused(offence) => say_made(diag, offence_line(alloc, offence), 1),
        Ending::Usage => say(diag, "usage: quill run FILE SCRIPT / save FILE\n", 2),
        Ending::BadLine(number) => say_made(diag, numbered_line(alloc, number), 3),
        Ending::Absent(name) => say_made(diag, named_line(alloc, "absent: ", name), 4),
        Ending::ShelfFault(name) => say_made(diag, named_line(alloc, "shelf fault: ", name), 5),
        Ending::OutputFault => say(diag, "output fault\n", 6),
        Ending::NoMemory => say(diag, NO_MEMORY, 7),
        Ending::TooLong(name) => say_made(diag, named_line(alloc, "too long: ", name), 8),
    }
}

// The line of an ending for want of memory, which takes none.
const NO_MEMORY: &str = "no memory\n";

// The line that names a line of the script.
fn numbered_line(alloc: Global, number: u32) -> Result<String, AllocError>
    ensures { IfOk result (λ line. string_bytes line ≡ (bad_line number).line) }
{
    format!(in alloc; "script: line {number}\n")
}

// A line that ends with a file's name.
fn named_line(alloc: Global, front: &str, name: &str) -> Result<String, AllocError>
    ensures { IfOk result (λ line. string_bytes line ≡ front.now ++ (name.now ++ codes "\n")) }
{
    format!(in alloc; "{front}{name}\n")
}

// Puts a line that was made, or says that there was no memory for it.
fn say_made<D: Sink>(diag: &mut D, made: Result<String, AllocError>, status: u8) -> Status
    ensures told { (bytes : List ℕ) → IfOk made (λ line. string_bytes line ≡ bytes)
        → IsTold (record { status = status; line = bytes }) result.0
        (D.held diag.old) (D.held diag.new) (D.faults diag.old) (D.faults diag.new) }
    ensures never_falls { D.faults diag.old ≤ D.faults diag.new }
{
    match made {
        Ok(line) => say(diag, line.as_str(), status),
        Err(AllocError) => say(diag, NO_MEMORY, 7),
    }
}

// Puts a line. That it fails changes no status.
fn say<D: Sink>(diag: &mut D, line: &str, status: u8) -> Status
    ensures status { result.0 ≡ status }
    ensures told { Tells line.now
        (D.held diag.old) (D.held diag.new) (D.faults diag.old) (D.faults diag.new) }
    ensures never_falls { D.faults diag.old ≤ D.faults diag.new }
{
    let _ = diag.put(line.as_bytes());
    Status(status)
}

/// Puts the line of a report, if there is one. That it fails changes nothing.
pub(crate) fn report<D: Sink>(diag: &mut D, line: &Option<String>)
    ensures told { Reports (option_map string_bytes line.now)
        (D.held diag.old) (D.held diag.new) (D.faults diag.old) (D.faults diag.new) }
    ensures never_falls { D.faults diag.old ≤ D.faults diag.new }
{
    match line {
        Some(line) => {
            let _ = diag.put(line.as_bytes());
        }
        None => {}
    }
}

/// Why a run ends whose file isn't loaded.
pub(crate) fn load_ending<'a>(fault: LoadFault) -> Ending<'a>
    ensures { stop_of result ≡ fault_stop fault }
{
    match fault {
        LoadFault::Offence(offence) => Ending::Refused(offence),
        LoadFault::NoMemory => Ending::NoMemory,
    }
}
