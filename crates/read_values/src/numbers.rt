//! Numbers, written in decimal digits.
ghost use Rattle.std.specs.Prelude.{◌≡◌, ◌≤◌, ◌^◌, true, chars, IfSome, MatchOption};
ghost use Rattle.std.specs.Str.Parse.{digits_value};
ghost use Rattle.load_model.specs.Values as values;

/// Whether a text is a number: decimal digits, at least one.
#[tactic(auto, using(crate::proofs::Digits::number_by_bytes))]
pub fn is_number(text: &str) -> bool
    ensures { result ≡ values.is_number (chars text.now) }
{
    is_number_text(text.as_bytes())
}

fn is_number_text(bytes: &[u8]) -> bool
    ensures { result ≡ values.is_number bytes.now }
{
    if bytes.is_empty() {
        return false;
    }
    'digits: for digit in bytes {
        if !digit.is_ascii_digit() {
            return false;
        }
    }
    true
}

// The number that digits write, where it is below 2 to the 32.
#[tactic(auto, using(crate::proofs::Digits::no_plus, crate::proofs::Digits::is_numeral))]
fn written(text: &str) -> Option<u32>
    requires { values.is_number text.now ≡ true }
    ensures { MatchOption result (2 ^ 32 ≤ digits_value 10 text.now) (λ number. number ≡ digits_value 10 text.now) }
{
    match text.parse::<u32>() {
        Ok(number) => Some(number),
        Err(_) => None,
    }
}

#[tactic(auto, using(crate::proofs::Digits::number_not, crate::proofs::Digits::number_low, crate::proofs::Digits::number_high, crate::proofs::Digits::number_some))]
fn number_text(least: u32, greatest: u32, text: &str) -> Option<u32>
    ensures range { IfSome result (λ number. (least ≤ number) × (number ≤ greatest)) }
    ensures value { result ≡ values.number least greatest text.now }
{
    if !is_number_text(text.as_bytes()) {
        return None;
    }
    match written(text) {
        None => None,
        Some(number) => {
            if number < least {
                return None;
            }
            if number > greatest {
                return None;
            }
            Some(number)
        }
    }
}

/// A number in a range, which is written in decimal digits.
#[tactic(auto, using(crate::proofs::Digits::number_same))]
pub fn number(least: u32, greatest: u32, text: &str) -> Option<u32>
    ensures range { IfSome result (λ number. (least ≤ number) × (number ≤ greatest)) }
    ensures value { result ≡ values.number least greatest (chars text.now) }
{
    number_text(least, greatest, text)
}

/// The level of a list or a heading: 1 to 10.
pub fn level(text: &str) -> Option<u32>
    ensures { result ≡ values.level (chars text.now) }
{
    number(1, 10, text)
}

/// How many lines stand together at a page's end: 0 to 255.
pub fn line_count(text: &str) -> Option<u32>
    ensures { result ≡ values.line_count (chars text.now) }
{
    number(0, 255, text)
}

/// The level of a heading: a number from 1 up, of which those above 10 are read as 10.
#[tactic(auto, using(crate::proofs::Digits::heading_same, crate::proofs::Digits::heading_not, crate::proofs::Digits::heading_low, crate::proofs::Digits::heading_high, crate::proofs::Digits::heading_some))]
pub fn heading_level(text: &str) -> Option<u32>
    ensures { result ≡ values.heading_level (chars text.now) }
{
    heading_level_text(text)
}

#[tactic(auto, using(crate::proofs::Digits::heading_not, crate::proofs::Digits::heading_low, crate::proofs::Digits::heading_high, crate::proofs::Digits::heading_some))]
fn heading_level_text(text: &str) -> Option<u32>
    ensures { result ≡ values.heading_level text.now }
{
    if !is_number_text(text.as_bytes()) {
        return None;
    }
    match written(text) {
        None => Some(10),
        Some(number) => {
            if number < 1 {
                return None;
            }
            if number > 10 {
                return Some(10);
            }
            Some(number)
        }
    }
}
