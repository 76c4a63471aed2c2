//! Texts as they are printed between quotes.

ghost use Rattle.std.specs.Prelude.{◌≡◌, ◌++◌, ◌<◌, length, take, codes, chars, OnOk, false};
ghost use Rattle.std.specs.List.{flat_map};
ghost use Rattle.std.specs.Fmt.{digits, digit_glyph};
ghost use Rattle.desk_model.specs.Replies.{quoted, quoted_char};
ghost use Rattle.script_lang.specs.Parts.{IsOther};

use crate::printing::push_bytes;
use std::alloc::AllocError;

/// A text in quotes.
pub(crate) fn push_quoted(out: &mut Vec<u8>, text: &str) -> Result<(), AllocError>
    ensures ok { OnOk result (out.new.items ≡ out.old.items ++ quoted (chars text.now)) }
    ensures front { take (length out.old.items) out.new.items ≡ out.old.items }
{
    push_bytes(out, b"\"")?;
    push_chars(out, text)?;
    push_bytes(out, b"\"")
}

fn push_chars(out: &mut Vec<u8>, text: &str) -> Result<(), AllocError>
    ensures ok { OnOk result (out.new.items ≡ out.old.items ++ flat_map quoted_char (chars text.now)) }
    ensures front { take (length out.old.items) out.new.items ≡ out.old.items }
{
    for letter in text.chars() {
        push_char(out, letter)?;
    }
    Ok(())
}

fn push_char(out: &mut Vec<u8>, letter: char) -> Result<(), AllocError>
    ensures ok { OnOk result (out.new.items ≡ out.old.items ++ quoted_char letter) }
    ensures front { take (length out.old.items) out.new.items ≡ out.old.items }
{
    match letter {
        '"' => push_bytes(out, b"\\\""),
        '\\' => push_bytes(out, b"\\\\"),
        '\n' => push_bytes(out, b"\\n"),
        '\t' => push_bytes(out, b"\\t"),
        _ => push_other(out, letter),
    }
}

/// A character that is neither quote, backslash, line feed nor tab.
fn push_other(out: &mut Vec<u8>, letter: char) -> Result<(), AllocError>
    requires { IsOther letter }
    ensures ok { OnOk result (out.new.items ≡ out.old.items ++ quoted_char letter) }
    ensures front { take (length out.old.items) out.new.items ≡ out.old.items }
{
    let code = u32::from(letter);
    if code < 0x20 {
        push_number(out, code)
    } else {
        let mut buffer = [0; 4];
        push_bytes(out, letter.encode_utf8(&mut buffer).as_bytes())
    }
}

/// A character below U+20 by its number.
fn push_number(out: &mut Vec<u8>, code: u32) -> Result<(), AllocError>
    requires { code < 0x20 }
    ensures ok { OnOk result (out.new.items ≡ out.old.items ++ (codes "\\u{" ++ (digits 16 false code ++ codes "}"))) }
    ensures front { take (length out.old.items) out.new.items ≡ out.old.items }
{
    push_bytes(out, b"\\u{")?;
    push_hex(out, code)?;
    push_bytes(out, b"}")
}

/// A number in hexadecimal, without leading zeros.
fn push_hex(out: &mut Vec<u8>, number: u32) -> Result<(), AllocError>
    requires { number < 0x20 }
    ensures ok { OnOk result (out.new.items ≡ out.old.items ++ digits 16 false number) }
    ensures front { take (length out.old.items) out.new.items ≡ out.old.items }
{
    if number < 16 {
        push_bytes(out, &[hex_digit(number)])
    } else {
        push_bytes(out, &[b'1', hex_digit(number - 16)])
    }
}

fn hex_digit(digit: u32) -> u8
    requires { digit < 16 }
    ensures { result ≡ digit_glyph false digit }
{
    let digit = digit as u8;
    if digit < 10 {
        b'0' + digit
    } else {
        b'a' + (digit - 10)
    }
}
