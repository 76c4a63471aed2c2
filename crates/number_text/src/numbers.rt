//! Numbers in the formats of a document.

ghost use Rattle.std.specs.Prelude.{◌≡◌, ◌<◌, ◌≤◌, ◌+◌, [], ◌++◌, codes, replicate, reverse, OnOk};
ghost use Rattle.field_model.specs.Numbers.{shown_number, letters, word_of, roman, roman_digit, roman_or_digits};
ghost use Rattle.field_model.specs.Cut.{cut};

use crate::cut::CutText;
use doc_model::Format;
use itoa::Buffer;
use std::alloc::AllocError;

/// The small roman letters for 1, 5, 10, 50, 100, 500 and 1000.
const SMALL_ROMAN: [char; 7] = ['i', 'v', 'x', 'l', 'c', 'd', 'm'];

/// The large roman letters for the same numbers.
const LARGE_ROMAN: [char; 7] = ['I', 'V', 'X', 'L', 'C', 'D', 'M'];

/// Adds a number in a format ('style:num-format'): in digits, in letters from a to z and then aa, ab and so on, or in
/// roman letters from 1 to 3999 and else in digits. In letters 0 is `0`. The empty format adds nothing.
pub fn push_number(out: &mut CutText, format: Format, number: u64) -> Result<(), AllocError>
    ensures { OnOk result (out.new ≡ cut (out.old ++ shown_number format number)) }
{
    match format {
        Format::Digits => push_digits(out, number),
        Format::LowerLetter => push_letters(out, b'a', number),
        Format::UpperLetter => push_letters(out, b'A', number),
        Format::LowerRoman => push_roman_or_digits(out, &SMALL_ROMAN, number),
        Format::UpperRoman => push_roman_or_digits(out, &LARGE_ROMAN, number),
        Format::Empty => out.push_str(""),
    }
}

fn push_digits(out: &mut CutText, number: u64) -> Result<(), AllocError>
    ensures { OnOk result (out.new ≡ cut (out.old ++ shown_number Format.Digits number)) }
{
    let mut buffer = Buffer::new();
    out.push_str(buffer.format(number))
}

fn push_letters(out: &mut CutText, first: u8, number: u64) -> Result<(), AllocError>
    requires { first ≤ 97 }
    ensures { OnOk result (out.new ≡ cut (out.old ++ letters first number)) }
{
    if number == 0 {
        return out.push('0');
    }
    push_word(out, first, number)
}

/// Adds the word of a number, which is empty for 0.
fn push_word(out: &mut CutText, first: u8, number: u64) -> Result<(), AllocError>
    requires { first ≤ 97 }
    ensures { OnOk result (out.new ≡ cut (out.old ++ reverse (word_of first number))) }
{
    if out.is_full() {
        return Ok(());
    }
    if number == 0 {
        return Ok(());
    }
    push_word(out, first, (number - 1) / 26)?;
    out.push(char::from(first + ((number - 1) % 26) as u8))
}

fn push_roman_or_digits(out: &mut CutText, seven: &[char; 7], number: u64) -> Result<(), AllocError>
    ensures { OnOk result (out.new ≡ cut (out.old ++ roman_or_digits seven.now number)) }
{
    if number >= 1 && number <= 3999 {
        push_roman(out, seven, number)
    } else {
        push_digits(out, number)
    }
}

fn push_roman(out: &mut CutText, seven: &[char; 7], number: u64) -> Result<(), AllocError>
    ensures { OnOk result (out.new ≡ cut (out.old ++ roman seven.now number)) }
{
    let [one, five, ten, fifty, hundred, five_hundred, thousand] = *seven;
    push_copies(out, thousand, number / 1000)?;
    push_roman_digit(out, hundred, five_hundred, thousand, number / 100 % 10)?;
    push_roman_digit(out, ten, fifty, hundred, number / 10 % 10)?;
    push_roman_digit(out, one, five, ten, number % 10)
}

/// Adds a decimal digit by the roman letters for one, five and ten at its place.
fn push_roman_digit(
    out: &mut CutText,
    one: char,
    five: char,
    ten: char,
    digit: u64,
) -> Result<(), AllocError>
    ensures { OnOk result (out.new ≡ cut (out.old ++ roman_digit one five ten digit)) }
{
    if digit == 9 {
        out.push(one)?;
        return out.push(ten);
    }
    if digit >= 5 {
        out.push(five)?;
        return push_copies(out, one, digit - 5);
    }
    if digit == 4 {
        out.push(one)?;
        return out.push(five);
    }
    push_copies(out, one, digit)
}

fn push_copies(out: &mut CutText, letter: char, count: u64) -> Result<(), AllocError>
    ensures { OnOk result (out.new ≡ cut (out.old ++ replicate count letter)) }
{
    if out.is_full() {
        return Ok(());
    }
    for _ in 0..count {
        out.push(letter)?;
    }
    Ok(())
}
