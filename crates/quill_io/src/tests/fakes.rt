//! A writer and a reader of which one call fails and the next ones work.

use std::cell::Cell;
use std::io;
use std::io::{ErrorKind, Read, Write};

/// What a writer has met: its calls, writes and flushes alike, the bytes that it took, and whether some wait for a flush.
#[derive(Clone, Copy, Debug, Default, PartialEq, Eq)]
pub struct Seen {
    pub calls: u32,
    pub taken: usize,
    pub waits: bool,
}

/// A writer that takes three bytes at most at a time. The call of the number `failing` fails.
#[derive(Drop)]
pub struct Pen<'a> {
    pub seen: &'a Cell<Seen>,
    pub failing: u32,
}

impl Write for Pen<'_> {
    fn write(&mut self, buf: &[u8]) -> io::Result<usize> {
        let mut seen = self.seen.get();
        seen.calls = seen.calls.saturating_add(1);
        let count = buf.len().min(3);
        if seen.calls == self.failing {
            self.seen.set(seen);
            return Err(io::Error::from(ErrorKind::Other));
        }
        seen.taken = seen.taken.saturating_add(count);
        seen.waits = true;
        self.seen.set(seen);
        Ok(count)
    }

    fn flush(&mut self) -> io::Result<()> {
        let mut seen = self.seen.get();
        seen.calls = seen.calls.saturating_add(1);
        if seen.calls == self.failing {
            self.seen.set(seen);
            return Err(io::Error::from(ErrorKind::Other));
        }
        seen.waits = false;
        self.seen.set(seen);
        Ok(())
    }
}

/// A reader that gives three bytes at most at a time. The call of the number `failing` fails.
#[derive(Drop)]
pub struct Spring<'a> {
    pub left: &'a [u8],
    pub calls: u32,
    pub failing: u32,
}

impl Read for Spring<'_> {
    fn read(&mut self, buf: &mut [u8]) -> io::Result<usize> {
        self.calls = self.calls.saturating_add(1);
        if self.calls == self.failing {
            return Err(io::Error::from(ErrorKind::Other));
        }
        let count = buf.len().min(3).min(self.left.len());
        buf[..count].copy_from_slice(&self.left[..count]);
        self.left = &self.left[count..];
        Ok(count)
    }
}
