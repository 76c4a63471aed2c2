//! Whole runs over a shelf and sinks in memory that fail, and one over files of many lines.

use quill_io::{MemShelf, MemSink, has_distinct_names};
use quill_top::quill_lone;
use spelling_model::{BODY, ROOT, ROOT_END, TAIL};
use std::alloc::{AllocError, Global};
use std::test::Fail;

// Which calls fail, counted from 1, or none for 0; and how many bytes the sinks take.
#[derive(Clone, Copy)]
struct Faults {
    shelf: u32,
    out: u32,
    out_room: usize,
    diag: u32,
    diag_room: usize,
}

const NONE: Faults = Faults {
    shelf: 0,
    out: 0,
    out_room: 1_000_000,
    diag: 0,
    diag_room: 100,
};

// How a run ends: its status, and what the output and the diagnostics took.
#[derive(Clone, Copy)]
struct End<'a> {
    status: u8,
    text: &'a str,
    line: &'a str,
}

// The words `run x y`.
fn words(alloc: Global) -> Result<Vec<String>, AllocError> {
    let mut words = Vec::new(alloc);
    for word in ["run", "x", "y"] {
        words.push(String::from_str(alloc, word)?)?;
    }
    Ok(words)
}

// The files `x` and `y`.
fn files(alloc: Global, x: &str, y: &str) -> Result<Vec<(String, Vec<u8>)>, AllocError> {
    let mut files = Vec::new(alloc);
    for (name, text) in [("x", x), ("y", y)] {
        let bytes = text.as_bytes().to_vec(alloc)?;
        files.push((String::from_str(alloc, name)?, bytes))?;
    }
    Ok(files)
}

// Whether a run over these files ends so, where these calls fail.
fn ends(alloc: Global, x: &str, y: &str, faults: Faults, end: End) -> Result<bool, AllocError> {
    let files = files(alloc, x, y)?;
    if !has_distinct_names(&files) {
        return Ok(false);
    }
    let mut shelf = MemShelf::new(files, [faults.shelf].to_vec(alloc)?);
    let mut out = MemSink::new(alloc, faults.out_room, [faults.out].to_vec(alloc)?)?;
    let mut diag = MemSink::new(alloc, faults.diag_room, [faults.diag].to_vec(alloc)?)?;
    let words = words(alloc)?;
    let status = quill_lone(alloc, &words, &mut shelf, &mut out, &mut diag).0;
    let told = diag.held() == end.line.as_bytes();
    Ok(status == end.status && out.held() == end.text.as_bytes() && told)
}

// How `version` over a file ends where calls fail.
fn fails(alloc: Global, x: &str, faults: Faults, end: End) -> Result<bool, AllocError> {
    ends(alloc, x, "version\n", faults, end)
}

#[test]
fn faults_end_a_run_by_their_causes_and_long_files_are_answered(
    rt: HostRuntime,
) -> Result<(), Fail> {
    let alloc = rt.alloc();
    assert!(rt; answers_long_files(alloc)?);
    let file = format!(in alloc; "{ROOT}{ROOT_END}{BODY}<text:p>hello</text:p>{TAIL}")?;
    let x = file.as_str();
    let whole = End {
        status: 0,
        text: "1: version 1\n",
        line: "",
    };
    assert!(rt; fails(alloc, x, NONE, whole)?);
    assert!(rt; fails(alloc, x, Faults { out: 2, ..NONE }, whole)?);

    let shelf_x = End {
        status: 5,
        text: "",
        line: "shelf fault: x\n",
    };
    let shelf_y = End {
        line: "shelf fault: y\n",
        ..shelf_x
    };
    assert!(rt; fails(alloc, x, Faults { shelf: 1, ..NONE }, shelf_x)?);
    assert!(rt; fails(alloc, x, Faults { shelf: 2, ..NONE }, shelf_y)?);

    let out = End {
        status: 6,
        text: "",
        line: "output fault\n",
    };
    let part = End { text: "1: ", ..out };
    assert!(rt; fails(alloc, x, Faults { out: 1, ..NONE }, out)?);
    assert!(rt;
        fails(
            alloc,
            x,
            Faults {
                out_room: 3,
                ..NONE
            },
            part
        )?
    );

    let refused = End {
        status: 1,
        text: "",
        line: "refused: plain at 0\n",
    };
    let part = End {
        line: "refus",
        ..refused
    };
    let quiet = End {
        line: "",
        ..refused
    };
    assert!(rt; fails(alloc, "", Faults { shelf: 2, ..NONE }, refused)?);
    assert!(rt; fails(alloc, "", Faults { diag: 2, ..NONE }, refused)?);
    assert!(rt;
        fails(
            alloc,
            "",
            Faults {
                diag_room: 5,
                ..NONE
            },
            part
        )?
    );
    assert!(rt; fails(alloc, "", Faults { diag: 1, ..NONE }, quiet)?);
    Ok(())
}

// The bytes of a document of a thousand paragraphs.
fn many_paragraphs(alloc: Global) -> Result<String, AllocError> {
    let mut file = format!(in alloc; "{ROOT}{ROOT_END}{BODY}")?;
    for _ in 0..1000 {
        file.push_str("<text:p>A paragraph of some words, of which there are many.</text:p>")?;
    }
    file.push_str(TAIL)?;
    Ok(file)
}

// A script of three thousand lines that ask for the debt, and of two more.
fn many_lines(alloc: Global) -> Result<String, AllocError> {
    let mut script = String::new(alloc);
    for _ in 0..3000 {
        script.push_str("debt\n")?;
    }
    script.push_str("settle\nsave\n")?;
    Ok(script)
}

// What it prints over the document whose bytes these are.
fn many_replies(alloc: Global, file: &str) -> Result<String, AllocError> {
    let mut text = String::new(alloc);
    for number in 1..3001 {
        write!(text, "{number}: debt 19001\n")?;
    }
    write!(
        text,
        "3001: settled 5001\n3002: saved {}\n{file}",
        file.len()
    )?;
    Ok(text)
}

// Whether the one is read and the other answered over it.
fn answers_long_files(alloc: Global) -> Result<bool, AllocError> {
    let file = many_paragraphs(alloc)?;
    let script = many_lines(alloc)?;
    let text = many_replies(alloc, file.as_str())?;
    let end = End {
        status: 0,
        text: text.as_str(),
        line: "",
    };
    ends(alloc, file.as_str(), script.as_str(), NONE, end)
}
