//! A shelf over the system's files.
ghost use Rattle.std.specs.Prelude.{◌≡◌, ℕ, ◌+◌, ◌<◌, ◌≤◌, [], length, take, drop, None, IfSome, IfOk, OnOk, IfErr, MatchResult, if◌then◌else◌};
ghost use Rattle.std.specs.Io.KnownBytes.{Keeps, Consumes, IsAtEnd};
ghost use Rattle.quill_io.specs.Faults.{next_count};
ghost use Rattle.quill_io.specs.Shelf.{KeepsLimit, is_failed};

use crate::calls::one_more;
use crate::shelf::{FetchFault, Fetched, Shelf};
use std::alloc::AllocError;
use std::fs::{File, OpenFile};
use std::io;
use std::io::{ErrorKind, Read};
use std::marker::Model;
use std::rt::Files;

// How many bytes the first read asks for, where the file's length is not known.
const FIRST_READ: usize = 8192;

/// The system's files. It does not tell what they hold.
///
/// A name is a path as it is written, seen from the current directory. A fetch reads at most one byte more
/// than its limit. The vector that it fills may have room for up to twice that.
#[derive(Drop)]
pub struct FolderShelf<R> {
    files: R,
    faults: u64,
}

impl<R> Model for FolderShelf<R> {
    ghost Value = { ℕ };

    ghost view = { λ shelf. shelf.faults };
}

impl<R: Files> FolderShelf<R> {
    /// A shelf of the files of this runtime.
    pub fn new(files: R) -> Self
        ensures { result ≡ 0 }
    {
        FolderShelf { files, faults: 0 }
    }

    /// How many calls of `fetch` have failed.
    pub fn faults(&self) -> u64
        ensures { result ≡ self.now }
    {
        self.faults
    }

    // Counts a fault, and gives the answer that names it.
    fn fault(&mut self) -> FetchFault
        ensures answer { result ≡ FetchFault.Failed }
        ensures counted { self.new ≡ next_count self.old }
    {
        self.faults = one_more(self.faults);
        FetchFault::Failed
    }
}

impl<R: Files> Shelf for FolderShelf<R> {
    ghost files = { λ _. None };

    ghost faults = { λ shelf. shelf };

    /// Opens the file and reads it to its end. Where there is no such file it is `Absent`, and any other
    /// error of opening or reading is a fault.
    fn fetch(&mut self, name: &str, most: u32, into: &mut Vec<u8>) -> Result<Fetched, FetchFault>
        ensures limit { KeepsLimit most result into.new.items }
        ensures counted { self.new ≡ (if is_failed result then next_count self.old else self.old) }
    {
        into.clear();
        let mut file = match File::open(&self.files, name) {
            Ok(file) => file,
            Err(fault) if fault.kind() == ErrorKind::NotFound => return Ok(Fetched::Absent),
            Err(_) => return Err(self.fault()),
        };
        let expected = expected_len(&file);
        match read_whole(&mut file, expected, most, into) {
            Ok(()) => Ok(Fetched::Bytes),
            Err(FetchFault::Failed) => {
                into.clear();
                Err(self.fault())
            }
            Err(fault) => {
                into.clear();
                Err(fault)
            }
        }
    }
}

// How long the system says that the file is, or 0 where it does not say.
fn expected_len<F: OpenFile>(file: &F) -> usize {
    match file.metadata() {
        Ok(metadata) => usize::try_from(metadata.len()).unwrap_or(0),
        Err(_) => 0,
    }
}

// Reads to the end, or to one byte more than `most`.
pub(crate) fn read_whole<R: Read>(
    reader: &mut R,
    expected: usize,
    most: u32,
    into: &mut Vec<u8>,
) -> Result<(), FetchFault>
    requires { into.old.items ≡ [] }
    ensures read { OnOk result (IfSome (R.remaining reader.old) (λ bytes. into.new.items ≡ bytes)) }
    ensures fits { OnOk result (length into.new.items ≤ most) }
    ensures bounded { length into.new.items ≤ most + 1 }
    ensures limit { IfErr result (λ fault. (limit : ℕ) → fault ≡ FetchFault.TooLong limit
        → (limit ≡ most) × IfSome (R.remaining reader.old) (λ bytes. most < length bytes)) }
{
    let limit = most as usize + 1;
    let mut filled = 0;
    while filled < limit {
        if make_room(into, filled, expected, limit).is_err() {
            return Err(FetchFault::NoMemory);
        }
        match read_at(reader, into, filled) {
            Ok(0) => {
                into.truncate(filled);
                return Ok(());
            }
            Ok(count) => filled += count,
            Err(_) => return Err(FetchFault::Failed),
        }
    }
    Err(FetchFault::TooLong(most))
}

// Makes a full vector longer, by zeros: twice as long, or one byte longer than the file is expected to
// be, so that one read takes it whole and the next finds its end.
fn make_room(
    into: &mut Vec<u8>,
    filled: usize,
    expected: usize,
    limit: usize,
) -> Result<(), AllocError>
    requires filled { filled ≤ length into.old.items }
    requires bounded { length into.old.items ≤ limit }
    requires below { filled < limit }
    ensures room { OnOk result (filled < length into.new.items) }
    ensures bounded { length into.new.items ≤ limit }
    ensures front { take filled into.new.items ≡ take filled into.old.items }
{
    if filled < into.len() {
        return Ok(());
    }
    let wanted = filled
        .saturating_mul(2)
        .max(expected.saturating_add(1))
        .max(FIRST_READ);
    into.resize(wanted.min(limit), 0)
}

// One read into the bytes from `at` on.
fn read_at<R: Read>(reader: &mut R, into: &mut Vec<u8>, at: usize) -> io::Result<usize>
    requires { at < length into.old.items }
    ensures len { length into.new.items ≡ length into.old.items }
    ensures front { take at into.new.items ≡ take at into.old.items }
    ensures within { IfOk result (λ count. at + count ≤ length into.new.items) }
    ensures bytes { MatchResult result
        (λ count. Consumes (R.remaining reader.old) (R.remaining reader.new)
        (take count (drop at into.new.items)))
        (λ _. Keeps (R.remaining reader.old) (R.remaining reader.new)) }
    ensures end { IfOk result (λ count. count ≡ 0 → IsAtEnd (R.remaining reader.new)) }
{
    let bytes = into.as_mut_slice();
    reader.read(&mut bytes[at..])
}
