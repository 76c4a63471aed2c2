//! Lengths, in inches with six digits behind the point.

ghost use Rattle.std.specs.Prelude.{◌≡◌, ◌++◌, ◌≤◌, chars, string_bytes, OnOk, unsigned_abs};
ghost use Rattle.std.specs.Fmt.{sign_text};
ghost use Rattle.style_model.specs.Lengths as named;
ghost use Rattle.style_model.specs.Lengths.{length_spelling};
ghost use Rattle.style_write.specs.Sizes.{size_text};

use crate::numbers::{push_decimal, push_plain, push_six_digits};
use doc_model::Length;
use std::alloc::AllocError;

/// The least number of millionths of an inch whose size is at least so many units.
fn millionths(units: u32) -> u64
    ensures { result ≡ named.millionths units }
{
    (units as u64 * 1_000_000 + 914_399) / 914_400
}

/// Adds a minus sign for what is below 0.
fn push_sign(out: &mut String, below_zero: bool) -> Result<(), AllocError>
    ensures { OnOk result (chars (string_bytes out.new) ≡ chars (string_bytes out.old) ++ sign_text below_zero) }
{
    if below_zero {
        return push_plain(out, "-");
    }
    Ok(())
}

/// Adds a size in millionths of an inch: the inches, a point, six digits and `in`.
fn push_size(out: &mut String, number: u64) -> Result<(), AllocError>
    ensures { OnOk result (chars (string_bytes out.new) ≡ chars (string_bytes out.old) ++ size_text number) }
{
    push_decimal(out, number / 1_000_000)?;
    push_plain(out, ".")?;
    push_six_digits(out, number)?;
    push_plain(out, "in")
}

/// Adds a length by its one spelling.
pub fn push_length(out: &mut String, length: Length) -> Result<(), AllocError>
    ensures { OnOk result (chars (string_bytes out.new) ≡ chars (string_bytes out.old) ++ length_spelling length) }
{
    let units = length.units();
    push_sign(out, units < 0)?;
    push_size(out, millionths(units.unsigned_abs()))
}
