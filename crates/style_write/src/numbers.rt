//! Numbers by their digits.

ghost use Rattle.std.specs.Prelude.{◌≡◌, ◌<◌, ◌++◌, [], ◌∷◌, chars, string_bytes, decimal, OnOk};
ghost use Rattle.style_model.specs.Lengths.{digit_at, six_digits};

use std::alloc::AllocError;

/// Adds a text as it stands.
pub(crate) fn push_plain(out: &mut String, text: &str) -> Result<(), AllocError>
    ensures { OnOk result (chars (string_bytes out.new) ≡ chars (string_bytes out.old) ++ chars text.now) }
{
    out.push_str(text)
}

fn write_decimal(out: &mut String, number: u64) -> Result<(), AllocError>
    ensures { OnOk result (string_bytes out.new ≡ string_bytes out.old ++ decimal number) }
{
    write!(out, "{number}")
}

/// Adds a number in decimal digits.
pub(crate) fn push_decimal(out: &mut String, number: u64) -> Result<(), AllocError>
    ensures { OnOk result (chars (string_bytes out.new) ≡ chars (string_bytes out.old) ++ decimal number) }
{
    write_decimal(out, number)
}

/// Adds the digit of a number at the place that counts so much.
fn push_digit(out: &mut String, number: u64, place: u64) -> Result<(), AllocError>
    requires { 0 < place }
    ensures { OnOk result (chars (string_bytes out.new) ≡ chars (string_bytes out.old) ++ digit_at number place ∷ []) }
{
    push_decimal(out, number / place % 10)
}

/// Adds the fourth to the sixth of a number's last six digits, from behind.
fn push_upper(out: &mut String, number: u64) -> Result<(), AllocError>
    ensures { OnOk result (chars (string_bytes out.new) ≡ chars (string_bytes out.old) ++ digit_at number 100000 ∷ digit_at number 10000 ∷ digit_at number 1000 ∷ []) }
{
    push_digit(out, number, 100_000)?;
    push_digit(out, number, 10_000)?;
    push_digit(out, number, 1_000)
}

/// Adds a number's last three digits.
fn push_lower(out: &mut String, number: u64) -> Result<(), AllocError>
    ensures { OnOk result (chars (string_bytes out.new) ≡ chars (string_bytes out.old) ++ digit_at number 100 ∷ digit_at number 10 ∷ digit_at number 1 ∷ []) }
{
    push_digit(out, number, 100)?;
    push_digit(out, number, 10)?;
    push_digit(out, number, 1)
}

/// Adds a number's last six digits.
pub(crate) fn push_six_digits(out: &mut String, number: u64) -> Result<(), AllocError>
    ensures { OnOk result (chars (string_bytes out.new) ≡ chars (string_bytes out.old) ++ six_digits number) }
{
    push_upper(out, number)?;
    push_lower(out, number)
}
