//! What text is put to.
ghost use Rattle.std.specs.Prelude.{ℕ, ◌≤◌, List, Option, OnErr};
ghost use Rattle.quill_io.specs.Faults.{Rose};
ghost use Rattle.quill_io.specs.Sink.{Puts};

use thiserror::Error;

/// Why a put did not take its whole piece.
#[derive(Clone, Copy, Debug, PartialEq, Eq, Error)]
pub enum SinkFault {
    /// The sink could not be written to.
    #[error("the sink could not be written to")]
    Failed,
}

/// A place that takes bytes in order, and a count of the faults met while they were written.
pub trait Sink {
    // The bytes that it holds, where it tells them.
    ghost held: { Self → Option (List ℕ) };

    // How many faults it has met.
    ghost faults: { Self → ℕ };

    /// Puts the piece after what the sink holds. It takes no memory.
    fn put(&mut self, bytes: &[u8]) -> Result<(), SinkFault>
        ensures told { Puts (held self.old) (held self.new) bytes.now result }

        ensures never_falls { faults self.old ≤ faults self.new }
        ensures cause { OnErr result (Rose (faults self.old) (faults self.new)) };
}
