//! Bytes and numbers as they are printed. Each of these leaves what stands in front, even where memory is wanting.

ghost use Rattle.std.specs.Prelude.{◌≡◌, ◌++◌, length, take, codes, decimal, OnOk, OnErr};
ghost use Rattle.desk_model.specs.Replies.{number_line};

use itoa::{Buffer, Integer};
use std::alloc::AllocError;

/// Takes back what was written behind the first `start` bytes, unless all was.
pub(crate) fn all_or_nothing(
    out: &mut Vec<u8>,
    start: usize,
    pushed: Result<(), AllocError>,
) -> Result<(), AllocError>
    ensures same { result ≡ pushed }
    ensures ok { OnOk pushed (out.new.items ≡ out.old.items) }
    ensures err { OnErr pushed (out.new.items ≡ take start out.old.items) }
{
    if pushed.is_err() {
        out.truncate(start);
    }
    pushed
}

/// A word, a space, a number and a line feed.
pub(crate) fn push_number_line(
    out: &mut Vec<u8>,
    word: &[u8],
    number: u32,
) -> Result<(), AllocError>
    ensures ok { OnOk result (out.new.items ≡ out.old.items ++ number_line word.now number) }
    ensures front { take (length out.old.items) out.new.items ≡ out.old.items }
{
    push_bytes(out, word)?;
    push_bytes(out, b" ")?;
    push_decimal(out, number)?;
    push_bytes(out, b"\n")
}

/// A word before a number.
pub(crate) fn push_word_number(
    out: &mut Vec<u8>,
    word: &[u8],
    number: u32,
) -> Result<(), AllocError>
    ensures ok { OnOk result (out.new.items ≡ out.old.items ++ (word.now ++ decimal number)) }
    ensures front { take (length out.old.items) out.new.items ≡ out.old.items }
{
    push_bytes(out, word)?;
    push_decimal(out, number)
}

/// A word before two numbers.
pub(crate) fn push_two_numbers(
    out: &mut Vec<u8>,
    word: &[u8],
    first: u32,
    second: u32,
) -> Result<(), AllocError>
    ensures ok { OnOk result (out.new.items ≡ out.old.items
        ++ (word.now ++ (decimal first ++ (codes " " ++ decimal second)))) }
    ensures front { take (length out.old.items) out.new.items ≡ out.old.items }
{
    push_bytes(out, word)?;
    push_decimal(out, first)?;
    push_bytes(out, b" ")?;
    push_decimal(out, second)
}

/// A number in decimal.
pub(crate) fn push_decimal<N: Integer>(out: &mut Vec<u8>, number: N) -> Result<(), AllocError>
    ensures ok { OnOk result (out.new.items ≡ out.old.items ++ N.text number) }
    ensures front { take (length out.old.items) out.new.items ≡ out.old.items }
{
    let mut buffer = Buffer::new();
    push_bytes(out, buffer.format(number).as_bytes())
}

pub(crate) fn push_bytes(out: &mut Vec<u8>, bytes: &[u8]) -> Result<(), AllocError>
    ensures ok { OnOk result (out.new.items ≡ out.old.items ++ bytes.now) }
    ensures front { take (length out.old.items) out.new.items ≡ out.old.items }
{
    out.extend_from_slice(bytes)
}
