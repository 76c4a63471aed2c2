//! The columns before a line and those that it may take.

ghost use Rattle.std.specs.Prelude.{◌≡◌, ◌==◌, ◌-◌, ◌*◌, pos, negsuc, ◌+ℤ◌, ◌≤ℤ◌, int_div, if◌then◌else◌};
ghost use Rattle.line_model.specs.Lines.{column, from_zero_up, lead, width};

use line_model::Key;

/// The columns that the line which begins at this place may take: those of the page without the margins, and at least two.
/// Places are in bytes of the key's text.
pub fn width(key: &Key, from: u32) -> u32
    ensures { result ≡ width key.now from }
{
    let right = from_zero_up(whole_columns(key.right));
    let free = key.columns.saturating_sub(lead(key, from));
    free.saturating_sub(right).max(2)
}

/// The columns before the line which begins at this place, none where they are fewer than none.
pub(crate) fn lead(key: &Key, from: u32) -> u32
    ensures { result ≡ lead key.now from }
{
    from_zero_up(indent(key, from))
}

/// The left margin, two for each list level after the first and, for the first line, the indent.
fn indent(key: &Key, from: u32) -> i32
    ensures { result ≡ int_div key.now.left column +ℤ pos (2 * (key.now.level - 1)) +ℤ (if from == 0 then int_div key.now.indent column else pos 0) }
{
    whole_columns(key.left) + level_columns(key.level) + first_indent(key.indent, from)
}

/// The columns of a list level: two for each after the first. Level 0 is no list.
fn level_columns(level: u8) -> i32
    ensures value { result ≡ pos (2 * (level - 1)) }
    ensures least { pos 0 ≤ℤ result }
    ensures most { result ≤ℤ pos 508 }
{
    2 * i32::from(level.saturating_sub(1))
}

/// The columns of the indent at the line which begins at this place: only the first line has it.
fn first_indent(indent: i32, from: u32) -> i32
    ensures value { result ≡ (if from == 0 then int_div indent column else pos 0) }
    ensures least { negsuc 23486 ≤ℤ result }
    ensures most { result ≤ℤ pos 23486 }
{
    if from == 0 { whole_columns(indent) } else { 0 }
}

/// The whole columns of a length, cut towards zero.
fn whole_columns(length: i32) -> i32
    ensures value { result ≡ int_div length column }
    ensures least { negsuc 23486 ≤ℤ result }
    ensures most { result ≤ℤ pos 23486 }
{
    length / 91440
}

/// A number, or 0 for one below it.
fn from_zero_up(columns: i32) -> u32
    ensures { result ≡ from_zero_up columns }
{
    if columns < 0 { 0 } else { columns as u32 }
}
