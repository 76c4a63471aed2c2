//! Where a page ends that begins with the first of some rows.

ghost use Rattle.std.specs.Prelude.{◌≡◌, ℕ, ◌+◌, ◌-◌, ◌<◌, ◌≤◌, ◌^◌, nat_le, true, false, length, take, drop};
ghost use Rattle.page_model.specs.Breaking.{blanks_between, blanks_of, greatest_to, is_reached, may_end_at, must_end_between, page_end, with_separator};
ghost use Rattle.paginate.specs.Neighbours.{blanks_first, must_end_first};

use page_model::{NoteRow, Row};

/// How many of some rows a page of this room has, to which note rows were carried: the most behind which it may end at the
/// least level that has such a place, else the first alone. It looks at no row behind the room of the page.
pub fn page_end(room: u32, carried: &[NoteRow], rows: &[Row]) -> usize
    ensures value { result ≡ page_end room carried.now rows.now }
    ensures within { result ≤ length rows.now }
    ensures some { 0 < length rows.now → 1 ≤ result }
{
    if rows.is_empty() {
        return 0;
    }
    let reach = reach(room as usize, carried, rows);
    if let Some(place) = end_at_level(0, rows, reach) {
        return place;
    }
    if let Some(place) = end_at_level(1, rows, reach) {
        return place;
    }
    end_at_level(2, rows, reach).unwrap_or(1)
}

/// The greatest place up to one at which a page may end at a level.
fn end_at_level(level: u8, rows: &[Row], reach: usize) -> Option<usize>
    requires { reach ≤ length rows.now }
    ensures { result ≡ greatest_to reach (may_end_at level rows.now) }
{
    let mut place = reach;
    'places: while place > 0 {
        if may_end_first(level, &rows[place - 1..]) {
            return Some(place);
        }
        place -= 1;
    }
    None
}

/// Whether at a level a page may end behind the first of some rows.
fn may_end_first(level: u8, rows: &[Row]) -> bool
    ensures { result ≡ may_end_at level rows.now 1 }
{
    match rows {
        [] => false,
        [_] => true,
        [row, next, ..] => row.ends || next.begins || row.level <= level,
    }
}

/// The last place up to which a page fits and isn't past the first one at which it must end.
fn reach(room: usize, carried: &[NoteRow], rows: &[Row]) -> usize
    requires { room < 2 ^ 32 }
    ensures reached { (place : ℕ) → 1 ≤ place → place ≤ result → is_reached room carried.now rows.now place ≡ true }
    ensures past { (place : ℕ) → result < place → is_reached room carried.now rows.now place ≡ false }
    ensures within { result ≤ length rows.now }
{
    let mut lines = 0;
    let mut blanks = 0;
    let mut notes = carried.len();
    'rows: for (index, row) in rows.iter().enumerate() {
        lines += blanks as usize + 1;
        notes = notes.saturating_add(row.notes.len());
        if !fits(room, lines, notes) {
            return index;
        }
        let rest = &rows[index..];
        if must_end_first(rest) {
            return index + 1;
        }
        blanks = blanks_first(rest);
    }
    rows.len()
}

/// Whether rows with blank rows, and note rows with a separator, fit a room.
fn fits(room: usize, lines: usize, notes: usize) -> bool
    ensures { result ≡ nat_le (lines + with_separator notes) room }
{
    if notes == 0 {
        return lines <= room;
    }
    match room.checked_sub(lines) {
        Some(left) => notes < left,
        None => false,
    }
}

/// Whether a page must end behind the first of some rows.
fn must_end_first(rows: &[Row]) -> bool
    ensures { result ≡ must_end_first rows.now }
{
    match rows {
        [row, next, ..] => row.ends || next.begins,
        _ => true,
    }
}

/// The blank rows between the first of some rows and the second.
pub fn blanks_first(rows: &[Row]) -> u32
    ensures { result ≡ blanks_first rows.now }
{
    match rows {
        [row, next, ..] => row.below.max(next.above),
        _ => 0,
    }
}
