//! Ample memory, the files of the system, and readers and writers of which one call fails.

mod fakes;

use crate::folder_shelf::read_whole;
use crate::{FetchFault, Fetched, FolderShelf, MemShelf, MemSink, Shelf, Sink, SinkFault, StdSink};
use fakes::{Pen, Seen, Spring};
use std::alloc::{AllocError, Global};
use std::cell::Cell;
use std::fs;
use std::fs::File;
use std::test::Fail;

fn many_bytes(alloc: Global) -> Result<Vec<u8>, AllocError> {
    let mut bytes = Vec::new(alloc);
    for number in 0..100_000u32 {
        bytes.push((number % 251) as u8)?;
    }
    Ok(bytes)
}

fn fetch_from<S: Shelf>(
    shelf: &mut S,
    name: &str,
    most: u32,
    into: &mut Vec<u8>,
) -> Result<Fetched, FetchFault> {
    shelf.fetch(name, most, into)
}

fn put_to<K: Sink>(sink: &mut K, piece: &[u8]) -> Result<(), SinkFault> {
    sink.put(piece)
}

#[test]
fn long_files_come_and_go_with_ample_memory(rt: HostRuntime) -> Result<(), Fail> {
    let alloc = rt.alloc();
    let bytes = many_bytes(alloc)?;
    let mut files = Vec::new(alloc);
    files.push((String::from_str(alloc, "a")?, bytes.clone()?))?;
    assert!(rt; crate::has_distinct_names(&files));
    let mut shelf = MemShelf::new(files, Vec::new(alloc));
    let mut into = Vec::new(alloc);
    assert!(rt; fetch_from(&mut shelf, "a", u32::MAX, &mut into) == Ok(Fetched::Bytes));
    assert!(rt; into == bytes);
    let mut sink = MemSink::new(alloc, bytes.len(), Vec::new(alloc))?;
    assert!(rt; put_to(&mut sink, &bytes).is_ok());
    assert!(rt; sink.held() == bytes.as_slice());
    Ok(())
}

// What a file of 100,000 bytes, a missing one, a folder and a name that is none are answered by, in this order.
const NAMED: &[(&str, u32, Result<Fetched, FetchFault>, usize, u64)] = &[
    ("quill_io.tmp", 100_000, Ok(Fetched::Bytes), 100_000, 0),
    (
        "quill_io.tmp",
        99_999,
        Err(FetchFault::TooLong(99_999)),
        0,
        0,
    ),
    ("quill_io_missing.tmp", 9, Ok(Fetched::Absent), 0, 0),
    (".", 9, Err(FetchFault::Failed), 0, 1),
    ("quill_io.tmp", u32::MAX, Ok(Fetched::Bytes), 100_000, 1),
    ("a\0b", 9, Err(FetchFault::Failed), 0, 2),
];

fn answers_as_named<S: Shelf>(shelf: &mut S, into: &mut Vec<u8>, row: usize) -> bool {
    let Some((name, most, answer, len, _)) = NAMED.get(row) else {
        return false;
    };
    fetch_from(shelf, name, *most, into) == *answer && into.len() == *len
}

#[test]
fn files_of_the_system_are_fetched_and_put(rt: HostRuntime) -> Result<(), Fail> {
    let name = "quill_io.tmp";
    let bytes = many_bytes(rt.alloc())?;
    let mut sink = StdSink::new(File::create(&rt, name)?);
    assert!(rt; put_to(&mut sink, b"").is_ok());
    assert!(rt; put_to(&mut sink, &bytes).is_ok());
    drop(sink);
    assert!(rt; fs::read(&rt, name)? == bytes);
    let mut shelf = FolderShelf::new(&rt);
    let mut into = Vec::new(rt.alloc());
    for row in 0..NAMED.len() {
        assert!(rt; answers_as_named(&mut shelf, &mut into, row), "row {row}");
        assert!(rt; shelf.faults() == NAMED[row].4, "row {row}");
        assert!(rt; into.is_empty() || into == bytes, "row {row}");
    }
    let mut sink = StdSink::new(File::open(&rt, name)?);
    assert!(rt; put_to(&mut sink, b"three").is_err());
    assert!(rt; sink.faults() == 1);
    fs::remove_file(&rt, name)?;
    Ok(())
}

// Which call of a writer of three bytes fails, and what it met in a put of seven bytes and one flush.
const PUT: &[(u32, bool, Seen)] = &[
    (
        0,
        true,
        Seen {
            calls: 4,
            taken: 7,
            waits: false,
        },
    ),
    (
        1,
        false,
        Seen {
            calls: 1,
            taken: 0,
            waits: false,
        },
    ),
    (
        2,
        false,
        Seen {
            calls: 2,
            taken: 3,
            waits: true,
        },
    ),
    (
        4,
        false,
        Seen {
            calls: 4,
            taken: 7,
            waits: true,
        },
    ),
];

// Whether a put is so, and the next one works without a further fault.
fn puts_once(failing: u32, works: bool, met: Seen) -> bool {
    let seen = Cell::new(Seen::default());
    let mut sink = StdSink::new(Pen {
        seen: &seen,
        failing,
    });
    if put_to(&mut sink, b"abcdefg").is_ok() != works || seen.get() != met {
        return false;
    }
    put_to(&mut sink, b"h").is_ok() && !seen.get().waits && sink.faults() == u64::from(!works)
}

// Which call of a reader of three bytes fails, the limit, and what reading seven bytes comes to after how many calls.
const READ: &[(u32, u32, Result<(), FetchFault>, u32)] = &[
    (0, 7, Ok(()), 4),
    (0, 6, Err(FetchFault::TooLong(6)), 3),
    (2, 7, Err(FetchFault::Failed), 2),
    (4, 7, Err(FetchFault::Failed), 4),
];

fn reads_once(
    alloc: Global,
    failing: u32,
    most: u32,
    answer: Result<(), FetchFault>,
    calls: u32,
) -> bool {
    let mut reader = Spring {
        left: b"written",
        calls: 0,
        failing,
    };
    let mut into = Vec::new(alloc);
    read_whole(&mut reader, 0, most, &mut into) == answer && reader.calls == calls
}

#[test]
fn a_call_that_fails_is_one_fault_and_is_not_made_again(rt: HostRuntime) {
    for (failing, works, met) in PUT {
        assert!(rt; puts_once(*failing, *works, *met), "{failing}");
    }
    for (failing, most, answer, calls) in READ {
        assert!(rt;
            reads_once(rt.alloc(), *failing, *most, *answer, *calls),
            "{failing}"
        );
    }
}
