//! What files are fetched from.
ghost use Rattle.std.specs.Prelude.{◌≡◌, ℕ, ◌≤◌, Option, IfSome};
ghost use Rattle.quill_io.specs.Shelf.{Files, Fetches, KeepsLimit, FailsByFault};

use thiserror::Error;

/// What a fetch found.
#[derive(Clone, Copy, Debug, PartialEq, Eq)]
pub enum Fetched {
    /// The file is there, and its bytes were fetched.
    Bytes,
    /// There is no file of that name.
    Absent,
}

/// Why a fetch brought nothing.
#[derive(Clone, Copy, Debug, PartialEq, Eq, Error)]
pub enum FetchFault {
    /// The shelf could not be read.
    #[error("the shelf could not be read")]
    Failed,
    /// The file has more bytes than this limit, which is the one that the fetch named.
    #[error("the file has more than {0} bytes")]
    TooLong(u32),
    /// There is no memory for the file's bytes.
    #[error("no memory for the file")]
    NoMemory,
}

/// Files by their names, and a count of the faults met while they were read.
///
/// A name is a text, and a file is its bytes.
pub trait Shelf {
    // What the shelf holds, where it tells that.
    ghost files: { Self → Option Files };

    // How many faults it has met.
    ghost faults: { Self → ℕ };

    /// Fetches the file `name` of at most `most` bytes, and puts its bytes in the place of what `into` had. After any
    /// answer but `Bytes`, want of memory too, `into` is empty.
    fn fetch(&mut self, name: &str, most: u32, into: &mut Vec<u8>) -> Result<Fetched, FetchFault>
        ensures keeps_files { files self.new ≡ files self.old }
        ensures told { IfSome (files self.old)
            (λ at. Fetches at name.now most result into.new.items) }
        ensures limit { KeepsLimit most result into.new.items }

        ensures never_falls { faults self.old ≤ faults self.new }
        ensures cause { FailsByFault (faults self.old) (faults self.new) result };
}
