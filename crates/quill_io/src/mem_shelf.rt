//! A shelf in memory.
ghost use Rattle.std.specs.Prelude.{◌≡◌, ℕ, ◌≤◌, ◌↔◌, [], map, Contains, IsTrue, Some, IsErrOf, option_copied, if◌then◌else◌};
ghost use Rattle.quill_io.specs.Faults.{next_count};
ghost use Rattle.quill_io.specs.Shelf.{Fetches, KeepsLimit, FailsByFault, is_failed};
ghost use Rattle.quill_io.specs.MemShelf.{HasDistinctNames, bytes_at, files_of};

use crate::calls::{is_listed, one_more};
use crate::shelf::{FetchFault, Fetched, Shelf};
use std::marker::Model;

/// Files that lie in memory, of which chosen calls of `fetch` fail.
///
/// The calls are numbered from 1. It serves tests, and looks a name up by reading through the names.
#[derive(Debug, Drop)]
pub struct MemShelf {
    files: Vec<(String, Vec<u8>)>,
    failing: Vec<u32>,
    calls: u64,
    faults: u64,
}

impl Model for MemShelf {
    ghost use Rattle.quill_io.specs.MemShelf.{ShelfState, files_of};

    ghost Value = { ShelfState };

    ghost view = { λ shelf. record {
      files = files_of shelf.files.items;
      failing = shelf.failing.items;
      calls = shelf.calls;
      faults = shelf.faults;
    } };
}

/// Whether no two of the files have one name. It compares each name with those after it.
pub fn has_distinct_names(files: &[(String, Vec<u8>)]) -> bool
    ensures { IsTrue result ↔ HasDistinctNames (files_of files.now) }
{
    for (place, (name, _)) in files.iter().enumerate() {
        if find(&files[place + 1..], name.as_str()).is_some() {
            return false;
        }
    }
    true
}

impl MemShelf {
    /// A shelf of these files, whose calls of the numbers in `failing` fail, counted from 1.
    pub fn new(files: Vec<(String, Vec<u8>)>, failing: Vec<u32>) -> Self
        requires { HasDistinctNames (files_of files.items) }
        ensures { result ≡ record { files = files_of files.items; failing = failing.items; calls = 0; faults = 0 } }
    {
        MemShelf {
            files,
            failing,
            calls: 0,
            faults: 0,
        }
    }

    /// How many calls of `fetch` have failed.
    pub fn faults(&self) -> u64
        ensures { result ≡ self.now.faults }
    {
        self.faults
    }
}

impl Shelf for MemShelf {
    ghost files = { λ shelf. Some (bytes_at shelf.files) };

    ghost faults = { λ shelf. shelf.faults };

    fn fetch(&mut self, name: &str, most: u32, into: &mut Vec<u8>) -> Result<Fetched, FetchFault>
        ensures keeps_files { self.new.files ≡ self.old.files }
        ensures keeps_list { self.new.failing ≡ self.old.failing }
        ensures told { Fetches (bytes_at self.old.files) name.now most result into.new.items }
        ensures limit { KeepsLimit most result into.new.items }

        // It fails exactly at the calls that are listed, and counts exactly those.
        ensures calls { self.new.calls ≡ next_count self.old.calls }
        ensures listed { IsErrOf result FetchFault.Failed ↔ Contains self.old.failing self.new.calls }
        ensures counted { self.new.faults ≡
            (if is_failed result then next_count self.old.faults else self.old.faults) }
    {
        into.clear();
        self.calls = one_more(self.calls);
        if is_listed(&self.failing, self.calls) {
            self.faults = one_more(self.faults);
            return Err(FetchFault::Failed);
        }
        let Some(bytes) = find(&self.files, name) else {
            return Ok(Fetched::Absent);
        };
        if bytes.len() > most as usize {
            return Err(FetchFault::TooLong(most));
        }
        if into.extend_from_slice(bytes).is_err() {
            return Err(FetchFault::NoMemory);
        }
        Ok(Fetched::Bytes)
    }
}

// The bytes of the file of this name.
fn find<'a>(files: &'a [(String, Vec<u8>)], name: &str) -> Option<&'a [u8]>
    ensures { option_copied result ≡ bytes_at (files_of files.now) name.now }
{
    for (other, bytes) in files {
        if name == other.as_str() {
            return Some(bytes);
        }
    }
    None
}
