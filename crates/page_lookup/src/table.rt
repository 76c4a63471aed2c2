//! Look-ups in a page table itself.

ghost use Rattle.std.specs.Prelude.{◌≡◌};
ghost use Rattle.page_lookup.specs.Numbers.{entry_at, number_of};
ghost use Rattle.field_model.specs.Shown.{page_of};

use doc_model::{PageEntry, PageTable, ParId};
use sqlite_items::at;

/// The index of the page of a paragraph, from 1, if it has one. It looks through the paragraphs of the table, and takes no
/// memory.
pub fn page_of(table: &PageTable, par: ParId) -> Option<u32>
    ensures { result ≡ page_of table.now par.0 }
{
    let id = par.0;
    match table.pars.get().iter().find(|entry| entry.par.0 == id) {
        Some(entry) => Some(entry.page),
        None => None,
    }
}

/// The number of the page of a paragraph, if it has one. It looks through the paragraphs of the table, and takes no memory.
pub fn number_of(table: &PageTable, par: ParId) -> Option<u32>
    ensures { result ≡ number_of table.now par.0 }
{
    match page_of(table, par) {
        Some(page) => match entry_at(table, page) {
            Some(entry) => Some(entry.number),
            None => None,
        },
        None => None,
    }
}

/// What a page table knows of the page of an index, from 1.
pub(crate) fn entry_at(table: &PageTable, page: u32) -> Option<PageEntry>
    ensures { result ≡ entry_at table.now page }
{
    at(table.pages.get(), page.saturating_sub(1) as usize).copied()
}
