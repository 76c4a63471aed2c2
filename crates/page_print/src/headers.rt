//! The rows of headers and footers.

ghost use Rattle.std.specs.Prelude.{◌≡◌, ◌<◌, ◌^◌, ◌++◌, [], map, take, length, encode_utf8_all, string_bytes, IfOk, OnOk, chars};
ghost use Rattle.line_model.specs.Lines.{end_of};
ghost use Rattle.line_model.specs.Units.{units_at};
ghost use Rattle.page_print.specs.Headers.{fitting, fitting_bytes, header_row, header_text, header_what, spaced};
ghost use Rattle.paginate.specs.Placed.{bodies, IsShort};

use crate::fields::header_field;
use break_units::units;
use doc_model::{HeadPar, Txt, What};
use line_model::TextUnit;
use page_model::PageBody;
use paginate::Plan;
use std::alloc::{AllocError, Global};

/// The row of a header paragraph on the page of an index: its text cut at the columns of the page.
pub fn header_row(
    alloc: Global,
    plan: &Plan,
    index: u32,
    page: &PageBody,
    par: &HeadPar,
) -> Result<Txt, AllocError>
    requires { IsShort plan.now }
    ensures { IfOk result (λ row. row ≡ header_row (bodies plan.now) index page.now par.now) }
{
    let text = header_text(alloc, plan, index, page, par)?;
    fitting_text(alloc, page.columns, text.as_str())
}

/// The text of a header paragraph.
fn header_text(
    alloc: Global,
    plan: &Plan,
    index: u32,
    page: &PageBody,
    par: &HeadPar,
) -> Result<String, AllocError>
    requires { IsShort plan.now }
    ensures { IfOk result (λ text. string_bytes text ≡ encode_utf8_all (header_text (bodies plan.now) index page.now par.now)) }
{
    let mut out = String::new(alloc);
    for what in par.items.get() {
        push_what(alloc, &mut out, plan, index, page, what)?;
    }
    Ok(out)
}

/// Adds what a header holds at a place, as it is shown.
fn push_what(
    alloc: Global,
    out: &mut String,
    plan: &Plan,
    index: u32,
    page: &PageBody,
    what: &What,
) -> Result<(), AllocError>
    requires { IsShort plan.now }
    ensures { OnOk result (string_bytes out.new ≡ string_bytes out.old ++ encode_utf8_all (header_what (bodies plan.now) index page.now what.now)) }
{
    match what {
        What::Char(letter) => out.push(*letter),
        What::Tab => out.push(' '),
        What::Break => out.push(' '),
        What::Field(field) => {
            let text = header_field(alloc, plan, index, page, field.get())?;
            push_spaced(out, &text)
        }
        What::Note(_) => Ok(()),
        What::Mark(_) => Ok(()),
    }
}

/// Adds a text with spaces for tabs and breaks.
fn push_spaced(out: &mut String, text: &Txt) -> Result<(), AllocError>
    ensures { OnOk result (string_bytes out.new ≡ string_bytes out.old ++ encode_utf8_all (map spaced text.now)) }
{
    for letter in text.get().chars() {
        out.push(spaced(letter))?;
    }
    Ok(())
}

/// A space for a tab or a break.
fn spaced(letter: char) -> char
    ensures { result ≡ spaced letter }
{
    match letter {
        '\t' | '\n' => ' ',
        _ => letter,
    }
}

/// What fits so many columns of a text, in whole units. A text of 4294967296 bytes or more is refused as want of memory is.
fn fitting_text(alloc: Global, columns: u32, text: &str) -> Result<Txt, AllocError>
    ensures { IfOk result (λ row. row ≡ chars (fitting_bytes columns text.now)) }
{
    if text.len() >= 0x1_0000_0000 {
        return Err(AllocError);
    }
    let units = units(alloc, text)?;
    let end = fitting_end(columns, units.get());
    Ok(Txt::from_list(String::from_str(alloc, &text[..end as usize])?))
}

/// The place behind the longest beginning of units whose columns fit.
fn fitting_end(columns: u32, units: &[TextUnit]) -> u32
    ensures { result ≡ end_of 0 (fitting columns units.now) }
{
    let mut room = columns;
    let mut end = 0;
    let mut left = units;
    'units: while let [unit, behind @ ..] = left {
        if unit.columns > room {
            return end;
        }
        room -= unit.columns;
        end = unit.to;
        left = behind;
    }
    end
}
