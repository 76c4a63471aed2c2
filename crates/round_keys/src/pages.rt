//! Pages of paragraphs by the table of a round.

ghost use Rattle.std.specs.Prelude.{◌≡◌};
ghost use Rattle.std.specs.Option.{option_map};
ghost use Rattle.page_lookup.specs.Numbers.{columns_of, entry_at};

use doc_model::ParId;
use page_lookup::IndexedTable;
use sqlite_items::at;

/// The columns of the page of a paragraph, if it has one.
pub(crate) fn columns_on_page(table: &IndexedTable, par: ParId) -> Option<u32>
    ensures { result ≡ columns_of table.now par.0 }
{
    match table.page_of(par) {
        Some(page) => columns_at(table, page),
        None => None,
    }
}

/// The columns of the page of an index, from 1.
fn columns_at(table: &IndexedTable, page: u32) -> Option<u32>
    ensures { result ≡ option_map (λ entry. entry.columns) (entry_at table.now page) }
{
    match at(table.table().pages.get(), page.saturating_sub(1) as usize) {
        Some(entry) => Some(entry.columns),
        None => None,
    }
}
