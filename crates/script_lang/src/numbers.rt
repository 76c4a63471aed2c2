//! Numbers as they stand in a line.

ghost use Rattle.std.specs.Prelude.{◌≡◌, ℕ, List, ◌++◌, MatchOption};
ghost use Rattle.desk_model.specs.Script.{IsNumber};
ghost use Rattle.script_lang.specs.Parts.{Finds, IsNumberThen};

use crate::cuts::cut_at;

/// The number that decimal digits spell, where it is below 2^32.
pub(crate) fn read_number(digits: &[u8]) -> Option<u32>
    ensures { Finds (IsNumber digits.now) result }
{
    let mut number: u32 = 0;
    for digit in digits {
        if !digit.is_ascii_digit() {
            return None;
        }
        number = number
            .checked_mul(10)?
            .checked_add(u32::from(*digit - b'0'))?;
    }
    if digits.is_empty() {
        None
    } else {
        Some(number)
    }
}

/// The number before the first space, and what follows the space.
pub(crate) fn number_before_space(bytes: &[u8]) -> Option<(u32, &[u8])>
    ensures { MatchOption result ((number : ℕ) (rest : List ℕ) → IsNumberThen bytes.now number rest → ⊥)
        (λ found. IsNumberThen bytes.now found.0 found.1.now) }
{
    let (digits, rest) = cut_at(bytes, b' ')?;
    let number = read_number(digits)?;
    Some((number, rest))
}
