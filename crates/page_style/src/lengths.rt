//! Lengths as texts.

ghost use Rattle.std.specs.Prelude.{◌≡◌, ◌*◌, ◌≤◌, ℕ, ℤ, ◌++◌, IfSome, MatchOption};
ghost use Rattle.doc_model.specs.Ranges.{IsLength};
ghost use Rattle.style_model.specs.Lengths.{LengthText, IsLengthText, measure_text, fraction_text, size_of, signed, Says, length_spelling, millionths};

use crate::figures::{cut_digits, cut_fraction, cut_sign, size, units_of};
use doc_model::Length;

/// The most digits before the point, and the most behind it.
const MOST_DIGITS: usize = 9;

/// The length that a text says (OpenDocument 1.3 part 3, 18.3.18): perhaps a minus, at most nine digits, perhaps a point
/// and at most nine digits, at least one digit in all, and then 'in', 'cm', 'mm', 'pt' or 'pc'. It is cut towards zero to
/// whole units, 914400 to an inch. `None` where the text has another form, and where the length's size is above 100000000.
pub fn length(text: &str) -> Option<Length>
    ensures said { IfSome result (λ units. Says text.now units) }
    ensures read { (units : ℤ) → Says text.now units → IsLength units → result ≡ Some units }
    ensures beyond { (units : ℤ) → Says text.now units → (IsLength units → ⊥) → result ≡ None }
{
    let (below_zero, rest) = cut_sign(text.as_bytes());
    match size_said(rest) {
        Some(size) => within(below_zero, size),
        None => None,
    }
}

/// The size that the text of a length without its sign says, in whole units.
fn size_said(text: &[u8]) -> Option<u64>
    ensures said { IfSome result (λ units. (given : LengthText) × IsLengthText given
        × (text.now ≡ given.whole ++ (fraction_text given.fraction ++ measure_text given.measure)) × (size_of given ≡ units)) }
    ensures read { (given : LengthText) → IsLengthText given → text.now ≡ given.whole ++ (fraction_text given.fraction ++ measure_text given.measure)
        → result ≡ Some (size_of given) }
{
    let (whole, rest) = cut_digits(text);
    let (fraction, rest) = cut_fraction(rest);
    if whole.len() > MOST_DIGITS {
        return None;
    }
    if fraction.len() > MOST_DIGITS {
        return None;
    }
    if whole.len() + fraction.len() == 0 {
        return None;
    }
    match units_of(rest) {
        Some(units) => Some(size(whole, fraction, units)),
        None => None,
    }
}

/// The length of a size and a sign, where it is one.
fn within(below_zero: bool, size: u64) -> Option<Length>
    ensures { MatchOption result (IsLength (signed below_zero size) → ⊥) (λ units. (units ≡ signed below_zero size) × IsLength (signed below_zero size)) }
{
    let Ok(units) = i32::try_from(size) else {
        return None;
    };
    if below_zero {
        return Length::new(-units);
    }
    Length::new(units)
}

/// The spelling of a length is read as that length, so what was read is spelled the same again; and it names the least
/// number of millionths of an inch of at least that size. This function does nothing.
pub fn spellings_are_read()
    ensures read { (units : ℤ) → IsLength units → Says (length_spelling units) units }
    ensures enough { (units : ℕ) → units * 1000000 ≤ millionths units * 914400 }
    ensures least { (units more : ℕ) → units * 1000000 ≤ more * 914400 → millionths units ≤ more }
{}
