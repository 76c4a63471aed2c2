//! A sink over what the system writes to.
ghost use Rattle.std.specs.Prelude.{◌≡◌, ℕ, None, is_ok, if◌then◌else◌};
ghost use Rattle.quill_io.specs.Faults.{next_count};
ghost use Rattle.quill_io.specs.Sink.{Puts};

use crate::calls::one_more;
use crate::sink::{Sink, SinkFault};
use std::io::Write;
use std::marker::Model;

/// A sink over a writer of std, such as standard output. As a sink it tells nothing of the bytes held.
#[derive(Drop)]
pub struct StdSink<W> {
    writer: W,
    faults: u64,
}

impl<W> Model for StdSink<W> {
    ghost use Rattle.quill_io.specs.StdSink.{WriterState};

    ghost Value = { WriterState W };

    ghost view = { λ sink. record { writer = sink.writer; faults = sink.faults } };
}

impl<W: Write> StdSink<W> {
    /// A sink that puts to this writer.
    pub fn new(writer: W) -> Self
        ensures { result ≡ record { writer = writer; faults = 0 } }
    {
        StdSink { writer, faults: 0 }
    }

    /// How many calls of `put` have failed.
    pub fn faults(&self) -> u64
        ensures { result ≡ self.now.faults }
    {
        self.faults
    }
}

impl<W: Write> Sink for StdSink<W> {
    ghost held = { λ _. None };

    ghost faults = { λ sink. sink.faults };

    fn put(&mut self, bytes: &[u8]) -> Result<(), SinkFault>
        // What the writer tells of the bytes that it holds.
        ensures written { Puts (W.contents self.old.writer) (W.contents self.new.writer) bytes.now result }
        ensures counted { self.new.faults ≡
            (if is_ok result then self.old.faults else next_count self.old.faults) }
    {
        if write_whole(&mut self.writer, bytes).is_err() {
            self.faults = one_more(self.faults);
            return Err(SinkFault::Failed);
        }
        Ok(())
    }
}

// Writes the whole piece, by as many writes as that takes, and sees to it that none of it waits in a
// buffer. A write that takes nothing of what is left is a fault.
fn write_whole<W: Write>(writer: &mut W, bytes: &[u8]) -> Result<(), SinkFault>
    ensures { Puts (W.contents writer.old) (W.contents writer.new) bytes.now result }
{
    let mut rest = bytes;
    while !rest.is_empty() {
        match writer.write(rest) {
            Ok(0) => return Err(SinkFault::Failed),
            Ok(count) => rest = &rest[count..],
            Err(_) => return Err(SinkFault::Failed),
        }
    }
    match writer.flush() {
        Ok(()) => Ok(()),
        Err(_) => Err(SinkFault::Failed),
    }
}
