//! Rows with how deep they stand.
ghost use Rattle.std.specs.Prelude.{◌≡◌, ◌+◌, IfOk};
ghost use Rattle.node_array.specs.Held.{tag_of, next_depth, around_of};

use crate::row::Row;
use std::alloc::AllocError;
use tagged_list::Tag;

/// A row, with how many sections and notes are open before it.
#[derive(Drop)]
pub struct Placed {
    pub depth: u32,
    pub row: Row,
}

/// What a row is found by, before which so many are open.
pub fn tag(depth: u32, row: &Row) -> Option<Tag>
    ensures { result ≡ tag_of depth row.now }
{
    match row {
        Row::Start(_head) => Some(Tag::Depth(depth)),
        Row::End => None,
        Row::Par(head, _items) => Some(Tag::Number(head.id.0)),
        Row::NoteText => Some(Tag::Depth(depth)),
    }
}

/// How many are open behind a row.
pub fn next(depth: u32, row: &Row) -> Result<u32, AllocError>
    ensures { IfOk result (λ next. next ≡ next_depth depth row.now) }
{
    match row {
        Row::Start(_head) => raised(depth),
        Row::End => Ok(depth.saturating_sub(1)),
        Row::Par(_head, _items) => Ok(depth),
        Row::NoteText => raised(depth),
    }
}

/// How many sections and notes are round a row before which so many are open.
pub fn around(depth: u32, row: &Row) -> u32
    ensures { result ≡ around_of depth row.now }
{
    match row {
        Row::Start(_head) => depth,
        Row::End => depth.saturating_sub(1),
        Row::Par(_head, _items) => depth,
        Row::NoteText => depth,
    }
}

// One more. So many that they pass the largest number can't be held.
fn raised(depth: u32) -> Result<u32, AllocError>
    ensures { IfOk result (λ next. next ≡ depth + 1) }
{
    match depth.checked_add(1) {
        Some(depth) => Ok(depth),
        None => Err(AllocError),
    }
}
