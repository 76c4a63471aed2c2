//! The page table.

ghost use Rattle.std.specs.Prelude.{◌≡◌, ◌+◌, ◌<◌, ◌^◌, ◌∷◌, [], ◌++◌, map, replicate, length, IfOk, OnOk, None};
ghost use Rattle.paginate.specs.Marks.{all_marked, closed_entry, found_pars, looked_up, marked};

use crate::breaker::Closed;
use doc_model::{List, PageEntry, PageTable, ParId, ParPage};
use std::alloc::{AllocError, Global};

/// The page table of closed pages, which are told in two parts, and of paragraphs in the order in which they are set.
pub fn page_table(
    alloc: Global,
    set: &[ParId],
    pages: &[Closed],
    last: &[Closed],
) -> Result<PageTable, AllocError>
    ensures entries { IfOk result (λ table. table.pages ≡ map closed_entry pages.now ++ map closed_entry last.now) }
    ensures pars { length pages.now + length last.now + 1 < 2 ^ 32 → IfOk result (λ table. table.pars ≡ found_pars set.now (all_marked last.now (1 + length pages.now) (all_marked pages.now 1 (replicate (length set.now) None)))) }
{
    let mut entries = List::new(alloc);
    push_entries(&mut entries, pages)?;
    push_entries(&mut entries, last)?;
    let mut found = nowhere(alloc, set.len())?;
    mark_pages(&mut found, 1, pages);
    mark_pages(&mut found, 1 + pages.len(), last);
    let pars = found_pars(alloc, set, found.as_slice())?;
    Ok(PageTable {
        pages: entries,
        pars,
    })
}

/// Adds the numbers and columns of pages.
fn push_entries(entries: &mut List<PageEntry>, pages: &[Closed]) -> Result<(), AllocError>
    ensures { OnOk result (entries.new ≡ entries.old ++ map closed_entry pages.now) }
{
    for page in pages {
        entries.push(PageEntry {
            number: page.body.number,
            columns: page.body.columns,
        })?;
    }
    Ok(())
}

/// No page for so many paragraphs.
fn nowhere(alloc: Global, count: usize) -> Result<Vec<Option<u32>>, AllocError>
    ensures { IfOk result (λ found. found.items ≡ replicate count None) }
{
    let mut found = Vec::with_capacity(alloc, count)?;
    for _ in 0..count {
        found.push(None)?;
    }
    Ok(found)
}

/// Notes the pages of the paragraphs whose first rows stand on these pages. The first page has this index.
fn mark_pages(found: &mut Vec<Option<u32>>, first: usize, pages: &[Closed])
    ensures { first + length pages.now < 2 ^ 32 → found.new.items ≡ all_marked pages.now first found.old.items }
{
    'pages: for (index, page) in pages.iter().enumerate() {
        mark_page(
            found,
            page_index(first.saturating_add(index)),
            page.firsts.get(),
        );
    }
}

/// A page's index as it stands in a table.
fn page_index(index: usize) -> u32
    ensures { index < 2 ^ 32 → result ≡ index }
{
    if index < 0x1_0000_0000 {
        index as u32
    } else {
        u32::MAX
    }
}

/// Notes a page for the paragraphs at these places which have none yet.
fn mark_page(found: &mut Vec<Option<u32>>, page: u32, firsts: &[usize])
    ensures { found.new.items ≡ marked firsts.now page 0 found.old.items }
{
    'firsts: for place in firsts {
        mark(found, page, *place);
    }
}

/// Notes a page for the paragraph at a place, where it has none yet.
fn mark(found: &mut Vec<Option<u32>>, page: u32, place: usize)
    ensures { found.new.items ≡ marked (place ∷ []) page 0 found.old.items }
{
    if place >= found.len() {
        return;
    }
    if found[place].is_some() {
        return;
    }
    found[place] = Some(page);
}

/// The paragraphs of which a page was found.
fn found_pars(
    alloc: Global,
    set: &[ParId],
    found: &[Option<u32>],
) -> Result<List<ParPage>, AllocError>
    ensures { IfOk result (λ pars. pars ≡ found_pars set.now found.now) }
{
    let mut pars = List::new(alloc);
    let mut set = set;
    let mut found = found;
    'pars: while let [par, more @ ..] = set {
        let [page, pages @ ..] = found else {
            break;
        };
        if let Some(page) = page {
            pars.push(ParPage {
                par: *par,
                page: *page,
            })?;
        }
        set = more;
        found = pages;
    }
    Ok(pars)
}
