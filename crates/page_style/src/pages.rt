//! The dimensions of pages.

ghost use Rattle.std.specs.Prelude.{◌≡◌, ℤ, ◌-ℤ◌, int_div, unwrap_or};
ghost use Rattle.std.specs.Option.{option_copied};
ghost use Rattle.doc_model.specs.Ranges.{IsLength};
ghost use Rattle.style_model.specs.Dims.{columns_of, rows_of, at_least, column_units, row_units};

use doc_model::{Length, PageLayout};
use style_model::Dims;

/// The width of a page whose layout states none: 8.5 inches, in units.
const WIDTH: i32 = 7_772_400;

/// The height of a page whose layout states none: 11 inches, in units.
const HEIGHT: i32 = 10_058_400;

/// Each margin of a page whose layout states none: 0.7874 inches, in units.
const MARGIN: i32 = 719_998;

/// The units of a column, ten to an inch.
const COLUMN: i32 = 91_440;

/// The units of a row, six to an inch.
const ROW: i32 = 152_400;

/// How many columns and rows a page of this layout has between its margins: whole ones, at least 8 columns and 4 rows.
/// What isn't stated is as on a page of 8.5 by 11 inches with margins of 0.7874 inches.
pub fn dims(layout: Option<&PageLayout>) -> Dims
    ensures columns { result.columns ≡ columns_of (option_copied layout.entry) }
    ensures rows { result.rows ≡ rows_of (option_copied layout.entry) }
{
    match layout {
        Some(page) => Dims {
            columns: columns(
                or_unstated(page.width, WIDTH),
                or_unstated(page.left, MARGIN),
                or_unstated(page.right, MARGIN),
            ),
            rows: rows(
                or_unstated(page.height, HEIGHT),
                or_unstated(page.top, MARGIN),
                or_unstated(page.bottom, MARGIN),
            ),
        },
        None => Dims {
            columns: columns(WIDTH, MARGIN, MARGIN),
            rows: rows(HEIGHT, MARGIN, MARGIN),
        },
    }
}

/// The units of a length, or those that hold where it isn't stated.
fn or_unstated(stated: Option<Length>, unstated: i32) -> i32
    requires { IsLength unstated }
    ensures value { result ≡ unwrap_or stated unstated }
    ensures range { IsLength result }
{
    match stated {
        Some(length) => length.units(),
        None => unstated,
    }
}

/// The columns between the side margins of a page, at least 8. All lengths are in units.
fn columns(width: i32, left: i32, right: i32) -> u32
    requires width { IsLength width }
    requires left { IsLength left }
    requires right { IsLength right }
    ensures { result ≡ at_least 8 (int_div (width -ℤ left -ℤ right) column_units) }
{
    at_least(8, whole_columns(width - left - right))
}

/// The rows between the top and bottom margins of a page, at least 4. All lengths are in units.
fn rows(height: i32, top: i32, bottom: i32) -> u32
    requires height { IsLength height }
    requires top { IsLength top }
    requires bottom { IsLength bottom }
    ensures { result ≡ at_least 4 (int_div (height -ℤ top -ℤ bottom) row_units) }
{
    at_least(4, whole_rows(height - top - bottom))
}

/// The whole columns of a length, cut towards zero.
fn whole_columns(length: i32) -> i32
    ensures { result ≡ int_div length column_units }
{
    length / COLUMN
}

/// The whole rows of a length, cut towards zero.
fn whole_rows(length: i32) -> i32
    ensures { result ≡ int_div length row_units }
{
    length / ROW
}

/// A number, or the least one where it is below that.
fn at_least(least: u32, number: i32) -> u32
    ensures { result ≡ at_least least number }
{
    if number < 0 {
        least
    } else {
        least.max(number as u32)
    }
}
