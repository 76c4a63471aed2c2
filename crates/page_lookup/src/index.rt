//! An index of a page table.

ghost use Rattle.std.specs.Prelude.{◌≡◌, ℕ, [], ◌∷◌, IfOk, OnOk, nat_eq};
ghost use Rattle.indexmap.specs.IndexMap.{get};
ghost use Rattle.std.specs.Option.{option_or};
ghost use Rattle.field_model.specs.Shown.{page_of};
ghost use Rattle.doc_model.specs.declared.page.PageTable.{PageTable as Table};
ghost use Rattle.page_lookup.specs.Numbers.{columns_of, number_of, page_in};
ghost use Rattle.page_lookup.specs.Indexes.{Indexes};

use crate::table::entry_at;
use doc_model::{PageTable, ParId, ParPage};
use indexmap::IndexMap;
use std::alloc::{AllocError, Global};

/// The pages of the paragraphs of a page table, which are found without a look through all of them.
#[derive(Debug, Drop)]
pub struct PageIndex {
    pages: IndexMap<u32, u32>,
}

impl PageIndex {
    /// The index of a page table. It goes once through its paragraphs.
    pub fn of(alloc: Global, table: &PageTable) -> Result<PageIndex, AllocError>
        ensures { IfOk result (Indexes table.now) }
    {
        let mut pages = IndexMap::new(alloc);
        'entries: for entry in table.pars.get() {
            enter(&mut pages, *entry)?;
        }
        Ok(PageIndex { pages })
    }

    /// The index of the page of a paragraph, from 1, if it has one. It takes no memory.
    pub fn page_of(&self, par: ParId) -> Option<u32>
        ensures { (table : Table) → Indexes table self.now → result ≡ page_of table par.0 }
    {
        self.pages.get(&par.0).copied()
    }

    /// The number of the page of a paragraph, if it has one. It takes no memory.
    pub fn number_of(&self, table: &PageTable, par: ParId) -> Option<u32>
        ensures { Indexes table.now self.now → result ≡ number_of table.now par.0 }
    {
        match self.page_of(par) {
            Some(page) => match entry_at(table, page) {
                Some(entry) => Some(entry.number),
                None => None,
            },
            None => None,
        }
    }

    /// The columns of the page of a paragraph, if it has one. It takes no memory.
    pub fn columns_of(&self, table: &PageTable, par: ParId) -> Option<u32>
        ensures { Indexes table.now self.now → result ≡ columns_of table.now par.0 }
    {
        match self.page_of(par) {
            Some(page) => match entry_at(table, page) {
                Some(entry) => Some(entry.columns),
                None => None,
            },
            None => None,
        }
    }
}

/// Enters the page of a paragraph that has none yet.
fn enter(pages: &mut IndexMap<u32, u32>, entry: ParPage) -> Result<(), AllocError>
    ensures { OnOk result ((par : ℕ) → get nat_eq pages.new par ≡ option_or (get nat_eq pages.old par) (page_in (entry ∷ []) par)) }
{
    let par = entry.par.0;
    if pages.contains_key(&par) {
        return Ok(());
    }
    pages.insert(par, entry.page)?;
    Ok(())
}
