//! Notes among items.

ghost use Rattle.std.specs.Prelude.{◌≡◌, ◌≤◌, length};
ghost use Rattle.std.specs.List.{between};
ghost use Rattle.container_rows.specs.Texts.{note_count};
ghost use Rattle.doc_model.specs.Reading.{note_of};

use doc_model::{Item, What};
use run_text::RunText;

/// How many notes are among the items from `from` up to `to`, counted from 0. It takes no memory.
pub fn note_count(items: &RunText<Item>, from: usize, to: usize) -> usize
    requires in_order { from ≤ to }
    requires in_range { to ≤ length items.now }
    ensures { result ≡ note_count (between from to items.now) }
{
    let (first, second) = items.slice(from, to);
    notes_among(first) + notes_among(second)
}

// How many notes are among some items.
fn notes_among(items: &[Item]) -> usize
    ensures count { result ≡ note_count items.now }
    ensures few { result ≤ length items.now }
{
    let mut count = 0;
    for item in items {
        count += notes_in(item);
    }
    count
}

// 1 for a note, 0 for any other item.
fn notes_in(item: &Item) -> usize
    ensures count { result ≡ length (note_of item.now) }
    ensures few { result ≤ 1 }
{
    match &item.what {
        What::Note(_) => 1,
        _ => 0,
    }
}
