//! The parts of a length's text, each cut off from the front.

ghost use Rattle.std.specs.Prelude.{◌≡◌, ◌≢◌, ◌+◌, ◌*◌, ◌/◌, ◌^◌, ◌<◌, ◌≤◌, ℕ, List, ◌++◌, length, slice_index, Bool, false, Option, Some, IfSome};
ghost use Rattle.std.specs.Char.{is_ascii_digit};
ghost use Rattle.std.specs.Fmt.{sign_text};
ghost use Rattle.std.specs.List.{prefix_len};
ghost use Rattle.std.specs.Str.Parse.{AllDigits, digits_value};
ghost use Rattle.style_model.specs.Lengths.{Measure, measure_text, units_in, fraction_text, fraction_digits};

/// Whether the text begins with a minus, and what stands behind it.
pub(crate) fn cut_sign(text: &[u8]) -> (bool, &[u8])
    ensures cut { text.now ≡ sign_text result.0 ++ result.1.now }
    ensures only { (below_zero : Bool) (rest : List ℕ) → slice_index rest 0 ≢ 45 → text.now ≡ sign_text below_zero ++ rest
        → (result.0 ≡ below_zero) × (result.1.now ≡ rest) }
{
    match text {
        [b'-', rest @ ..] => (true, rest),
        _ => (false, text),
    }
}

/// The digits that the text begins with, and what stands behind them.
pub(crate) fn cut_digits(text: &[u8]) -> (&[u8], &[u8])
    ensures cut { text.now ≡ result.0.now ++ result.1.now }
    ensures digits { AllDigits 10 result.0.now }
    ensures only { (digits rest : List ℕ) → AllDigits 10 digits → is_ascii_digit (slice_index rest 0) ≡ false → text.now ≡ digits ++ rest
        → (result.0.now ≡ digits) × (result.1.now ≡ rest) }
{
    text.split_at(digit_count(text))
}

/// How many digits the text begins with.
fn digit_count(text: &[u8]) -> usize
    ensures value { result ≡ prefix_len is_ascii_digit text.now }
    ensures within { result ≤ length text.now }
{
    text.iter().take_while(|byte| byte.is_ascii_digit()).count()
}

/// The digits behind the point that the text begins with, none where it begins with no point, and what stands behind them.
pub(crate) fn cut_fraction(text: &[u8]) -> (&[u8], &[u8])
    ensures cut { (fraction : Option (List ℕ)) × (text.now ≡ fraction_text fraction ++ result.1.now) × (fraction_digits fraction ≡ result.0.now) }
    ensures digits { AllDigits 10 result.0.now }
    ensures only { (fraction : Option (List ℕ)) (rest : List ℕ) → AllDigits 10 (fraction_digits fraction) → is_ascii_digit (slice_index rest 0) ≡ false
        → slice_index rest 0 ≢ 46 → text.now ≡ fraction_text fraction ++ rest → (result.0.now ≡ fraction_digits fraction) × (result.1.now ≡ rest) }
{
    match text {
        [b'.', rest @ ..] => cut_digits(rest),
        _ => (&[], text),
    }
}

/// How many units one of the measure of this name has, if it is one.
pub(crate) fn units_of(name: &[u8]) -> Option<u64>
    ensures given { IfSome result (λ units. (measure : Measure) × (name.now ≡ measure_text measure) × (units ≡ units_in measure)) }
    ensures only { (measure : Measure) → name.now ≡ measure_text measure → result ≡ Some (units_in measure) }
    ensures most { IfSome result (λ units. units ≤ 914400) }
{
    match name {
        b"in" => Some(914_400),
        b"cm" => Some(360_000),
        b"mm" => Some(36_000),
        b"pt" => Some(12_700),
        b"pc" => Some(152_400),
        _ => None,
    }
}

/// The number that at most nine digits write.
fn number(digits: &[u8]) -> u64
    requires digits { AllDigits 10 digits.now }
    requires few { length digits.now ≤ 9 }
    ensures value { result ≡ digits_value 10 digits.now }
    ensures most { result < 1000000000 }
{
    let mut number = 0;
    for digit in digits {
        number = number * 10 + u64::from(*digit - b'0');
    }
    number
}

/// The size, in whole units, of so many of a measure that has so many units: the digits before and behind the point.
pub(crate) fn size(whole: &[u8], fraction: &[u8], units: u64) -> u64
    requires whole_digits { AllDigits 10 whole.now }
    requires fraction_digits { AllDigits 10 fraction.now }
    requires whole_few { length whole.now ≤ 9 }
    requires fraction_few { length fraction.now ≤ 9 }
    requires units_most { units ≤ 914400 }
    ensures { result ≡ digits_value 10 (whole.now ++ fraction.now) * units / 10 ^ length fraction.now }
{
    let parts = 10u64.pow(fraction.len() as u32);
    number(whole) * units + number(fraction) * units / parts
}
