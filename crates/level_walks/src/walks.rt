//! Walks along rows within one container.

ghost use Rattle.std.specs.Prelude.{◌≡◌, ◌≤◌, ◌<◌, ◌+◌, ◌^◌, length, drop, IfSome};
ghost use Rattle.std.specs.List.{between};
ghost use Rattle.level_rows.specs.Level.{held_in};
ghost use Rattle.level_walks.specs.Walks.{begins_with_one, depth_behind, is_held_here, is_nothing, is_one_held, stays};
ghost use Rattle.node_array.specs.Rows.{rows_of};

use node_array::{NodeArray, Row};

/// Whether a walk along the rows from one place to another stays in the container of the first row and ends in it. It
/// passes sections or it doesn't.
pub(crate) fn stays(rows: &NodeArray, sections: bool, from: usize, to: usize) -> bool
    requires in_range { to ≤ length (rows_of rows.now) }
    ensures { result ≡ stays sections 0 (between from to (rows_of rows.now)) }
{
    let mut depth = 0;
    for at in from..to {
        let row = rows.row(at);
        match depth_behind(sections, depth, row) {
            Some(behind) => depth = behind,
            None => return false,
        }
    }
    depth == 0
}

/// Whether what stands behind a row in its container begins with a paragraph.
pub(crate) fn begins_with_one(rows: &NodeArray, place: usize) -> bool
    requires in_range { place < length (rows_of rows.now) }
    ensures { result ≡ begins_with_one (held_in 0 (drop (place + 1) (rows_of rows.now))) }
{
    let end = rows.len();
    let mut depth = 0;
    for at in place + 1..end {
        let row = rows.row(at);
        if is_held_here(depth, row) {
            return true;
        }
        match depth_behind(false, depth, row) {
            Some(behind) => depth = behind,
            None => return false,
        }
    }
    false
}

/// Whether nothing stands behind a row in its container.
pub(crate) fn is_nothing(rows: &NodeArray, place: usize) -> bool
    requires in_range { place < length (rows_of rows.now) }
    ensures { result ≡ is_nothing (held_in 0 (drop (place + 1) (rows_of rows.now))) }
{
    let end = rows.len();
    let mut depth = 0;
    for at in place + 1..end {
        let row = rows.row(at);
        if is_one_held(depth, row) {
            return false;
        }
        match depth_behind(true, depth, row) {
            Some(behind) => depth = behind,
            None => return true,
        }
    }
    true
}

// How many more are open behind a row than in the container, unless it ends it or begins a section that may not be
// passed.
fn depth_behind(sections: bool, depth: usize, row: &Row) -> Option<usize>
    requires fits { depth + 1 < 2 ^ 64 }
    ensures is { result ≡ depth_behind sections depth row.now }
    ensures most { IfSome result (λ behind. behind ≤ depth + 1) }
{
    match row {
        Row::Start(_) => {
            if sections || depth > 0 {
                Some(depth + 1)
            } else {
                None
            }
        }
        Row::End => { if depth == 0 { None } else { Some(depth - 1) } }
        Row::Par(_, _) => Some(depth),
        Row::NoteText => Some(depth + 1),
    }
}

// Whether a row is that of a paragraph which the container itself holds.
fn is_held_here(depth: usize, row: &Row) -> bool
    ensures { result ≡ is_held_here depth row.now }
{
    match row {
        Row::Par(_, _) => depth == 0,
        _ => false,
    }
}

// Whether a row is that of a paragraph, or begins a section, which the container itself holds.
fn is_one_held(depth: usize, row: &Row) -> bool
    ensures { result ≡ is_one_held depth row.now }
{
    match row {
        Row::Start(_) => depth == 0,
        Row::Par(_, _) => depth == 0,
        _ => false,
    }
}
