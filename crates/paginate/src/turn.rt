//! How the next page is.

ghost use Rattle.std.specs.Prelude.{◌≡◌, ◌+◌, ◌-◌, ◌<◌, ◌≤◌, ◌^◌, length, max, take, unwrap_or};
ghost use Rattle.std.specs.Option.{option_and_then, option_copied, option_or};
ghost use Rattle.page_model.specs.Breaking.{blanks_of};
ghost use Rattle.page_model.specs.Frames.{frame_at, next_of as next_master_of};
ghost use Rattle.page_model.specs.Pages.{brought, count_for, master_of, number_of, room_for, room_for_notes};
ghost use Rattle.paginate.specs.Standing.{left_from};

use crate::ends::{blanks_first, page_end};
use crate::frame::{frame_at, next_of};
use page_model::{First, Frames, NoteRow, Row};

/// How the page is that begins with the first of some rows.
#[derive(Clone, Copy)]
pub struct Turn {
    /// The place of its master.
    pub master: Option<usize>,
    /// Its number.
    pub number: u32,
    /// Its columns.
    pub columns: u32,
    /// How many of the rows it has.
    pub count: usize,
    /// For how many note rows it has room.
    pub space: usize,
}

/// How the page is that begins with the first of some rows, behind a page with this master and number, from which note rows
/// were carried.
pub fn next_turn(
    frames: &Frames,
    master: Option<usize>,
    number: u32,
    carried: &[NoteRow],
    rows: &[Row],
) -> Turn
    ensures master { result.master ≡ master_of frames.now (left_from master number carried.now) rows.now }
    ensures number { number + 1 < 2 ^ 32 → result.number ≡ number_of (left_from master number carried.now) rows.now }
    ensures small { result.number ≤ max 65535 (number + 1) }
    ensures columns { result.columns ≡ (frame_at frames.now (master_of frames.now (left_from master number carried.now) rows.now)).columns }
    ensures count { result.count ≡ count_for frames.now (left_from master number carried.now) rows.now }
    ensures space { result.space ≡ room_for_notes frames.now (left_from master number carried.now) rows.now }
    ensures within { result.count ≤ length rows.now }
    ensures some { 0 < length rows.now → 1 ≤ result.count }
{
    let next = master_of(frames, master, rows);
    let frame = frame_at(frames, next);
    let count = page_end(frame.room, carried, rows);
    Turn {
        master: next,
        number: number_of(number, rows),
        columns: frame.columns,
        count,
        space: room_for_notes(frame.room, &rows[..count]),
    }
}

/// The room of the page that begins with the first of some rows, behind a page with this master.
pub fn room_for(frames: &Frames, master: Option<usize>, rows: &[Row]) -> u32
    ensures { result ≡ (frame_at frames.now (option_or (option_and_then (λ first. first.master) (brought rows.now)) (next_master_of frames.now master))).room }
{
    frame_at(frames, master_of(frames, master, rows)).room
}

/// The master of that page.
fn master_of(frames: &Frames, master: Option<usize>, rows: &[Row]) -> Option<usize>
    ensures { result ≡ option_or (option_and_then (λ first. first.master) (brought rows.now)) (next_master_of frames.now master) }
{
    match brought(rows) {
        Some(first) => first.master.or(next_of(frames, master)),
        None => next_of(frames, master),
    }
}

/// The number of the page that begins with the first of some rows, behind a page with this number.
fn number_of(number: u32, rows: &[Row]) -> u32
    ensures small { result ≤ max 65535 (number + 1) }
    ensures value { number + 1 < 2 ^ 32 → result ≡ unwrap_or (option_and_then (λ first. first.number) (brought rows.now)) (number + 1) }
{
    let next = number.saturating_add(1);
    match brought(rows) {
        Some(first) => stated_or(first.number, next),
        None => next,
    }
}

/// A stated number, or the next one.
fn stated_or(stated: Option<u16>, next: u32) -> u32
    ensures value { result ≡ unwrap_or stated next }
    ensures small { result ≤ max 65535 next }
{
    match stated {
        Some(number) => u32::from(number),
        None => next,
    }
}

/// What the first of some rows brings, where it is the first of a paragraph.
fn brought(rows: &[Row]) -> Option<&First>
    ensures { option_copied result ≡ brought rows.now }
{
    match rows {
        [row, ..] => row.first.as_ref(),
        [] => None,
    }
}

/// The note rows for which a page of this room has room behind these rows, their blank rows and a separator.
fn room_for_notes(room: u32, rows: &[Row]) -> usize
    ensures { result ≡ room - (length rows.now + blanks_of rows.now + 1) }
{
    let mut left = (room as usize).saturating_sub(1);
    'rows: for (index, _) in rows.iter().enumerate() {
        let blanks = blanks_first(&rows[index..]) as usize;
        left = left.saturating_sub(1).saturating_sub(blanks);
    }
    left
}
