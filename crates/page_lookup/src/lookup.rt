//! A page table with its index.

ghost use Rattle.std.specs.Prelude.{◌≡◌, IfOk};
ghost use Rattle.field_model.specs.Shown.{page_of};

use crate::index::PageIndex;
use doc_model::{PageTable, ParId};
use std::alloc::{AllocError, Global};
use std::marker::Model;

/// A page table in which the page of a paragraph is found without a look through all of them, seen as the table.
#[derive(Debug, Drop)]
pub struct IndexedTable {
    table: PageTable,
    index: PageIndex,
}

impl Model for IndexedTable {
    ghost use Rattle.doc_model.specs.declared.page.PageTable.{PageTable};
    ghost use Rattle.page_lookup.specs.Indexes.{Indexes};

    ghost Value = { PageTable };

    ghost view = { λ indexed. indexed.table };

    ghost invariant = { λ indexed. Indexes indexed.table indexed.index };
}

impl IndexedTable {
    /// The table with an index. It goes once through its paragraphs.
    pub fn of(alloc: Global, table: PageTable) -> Result<IndexedTable, AllocError>
        ensures { IfOk result (λ indexed. indexed ≡ table) }
    {
        let index = PageIndex::of(alloc, &table)?;
        Ok(IndexedTable { table, index })
    }

    /// The table. It takes no memory.
    pub fn table(&self) -> &PageTable
        ensures { result.now ≡ self.now }
    {
        &self.table
    }

    /// The index of a paragraph's page, from 1, if it has one. It takes no memory.
    pub fn page_of(&self, par: ParId) -> Option<u32>
        ensures { result ≡ page_of self.now par.0 }
    {
        self.index.page_of(par)
    }
}
