//! Page numbers, by a page table.
ghost use Rattle.std.specs.Prelude.{◌≡◌, ◌++◌, OnOk};
ghost use Rattle.field_model.specs.Shown.{page_at, page_text, page_number_text, page_count_text, select_pages};
ghost use Rattle.field_model.specs.Cut.{cut};

use crate::texts::push_nothing;
use doc_model::{Format, PageAdjust, Select};
use number_text::{CutText, push_number};
use page_lookup::IndexedTable;
use sqlite_items::at;
use std::alloc::AllocError;

// Adds the number of the page of an index, from 1, where there is such a page.
pub(crate) fn push_page(
    out: &mut CutText,
    table: &IndexedTable,
    format: Format,
    index: u64,
) -> Result<(), AllocError>
    ensures { OnOk result (out.new ≡ cut (out.old ++ page_at table.now format index)) }
{
    if index == 0 {
        return push_nothing(out);
    }
    match at(table.table().pages.get(), (index - 1) as usize) {
        Some(entry) => push_number(out, format, entry.number as u64),
        None => push_nothing(out),
    }
}

// How far the page is from the field's own one.
fn select_pages(select: Select) -> i64
    ensures { result ≡ select_pages select }
{
    match select {
        Select::Previous => -1,
        Select::Current => 0,
        Select::Next => 1,
    }
}

// Adds what a page number field shows in a paragraph on a page, from 1.
pub(crate) fn push_page_number(
    out: &mut CutText,
    table: &IndexedTable,
    page: Option<u32>,
    select: Select,
    adjust: PageAdjust,
    format: Format,
) -> Result<(), AllocError>
    ensures { OnOk result (out.new ≡ cut (out.old ++ page_number_text table.now page select adjust format)) }
{
    match page {
        Some(index) => {
            let sum = index as i64 + select_pages(select) + adjust.pages() as i64;
            push_sum(out, table, format, sum)
        }
        None => push_nothing(out),
    }
}

// Adds the number of the page of an index that may be below 0.
fn push_sum(
    out: &mut CutText,
    table: &IndexedTable,
    format: Format,
    index: i64,
) -> Result<(), AllocError>
    ensures { OnOk result (out.new ≡ cut (out.old ++ page_text table.now format index)) }
{
    if index < 0 {
        return push_nothing(out);
    }
    push_page(out, table, format, index as u64)
}

// Adds what a page count field shows in a paragraph on a page.
pub(crate) fn push_page_count(
    out: &mut CutText,
    table: &IndexedTable,
    page: Option<u32>,
    format: Format,
) -> Result<(), AllocError>
    ensures { OnOk result (out.new ≡ cut (out.old ++ page_count_text table.now page format)) }
{
    match page {
        Some(_) => push_number(out, format, table.table().pages.len() as u64),
        None => push_nothing(out),
    }
}
