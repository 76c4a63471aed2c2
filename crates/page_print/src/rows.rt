//! The rows of a page with header, notes and footer.

ghost use Rattle.std.specs.Prelude.{◌≡◌, ◌≤◌, ◌++◌, codes, map, length, option_copied, IfOk, OnOk, Some};
ghost use Rattle.page_print.specs.Headers.{header_row};
ghost use Rattle.page_print.specs.Printed.{page_at, master_of, header_of, footer_of, note_part};
ghost use Rattle.paginate.specs.Placed.{bodies, IsShort};

use crate::headers::header_row;
use doc_model::{HeadPar, List, Master, Page, Txt};
use page_model::PageBody;
use paginate::Plan;
use sqlite_items::at;
use std::alloc::{AllocError, Global};

/// What stands between the body of a page and its notes.
const SEPARATOR: &str = "--------";

/// The page of an index, from 1, of a finished plan, ready to be printed. Its header and footer go by the pages of the plan.
/// A header paragraph whose text has 4294967296 bytes or more is refused as want of memory is.
pub fn page_rows(alloc: Global, plan: &Plan, n: u32) -> Result<Page, AllocError>
    requires short { IsShort plan.now }
    requires least { 1 ≤ n }
    requires within { n ≤ length (bodies plan.now) }
    ensures { IfOk result (λ page. page_at plan.now.masters (bodies plan.now) n ≡ Some page) }
{
    let page = plan.body(n);
    let master = master_of(plan.masters(), page);
    let mut rows = List::new(alloc);
    push_header_rows(alloc, &mut rows, plan, n, page, header_of(master))?;
    push_rows(&mut rows, page.body.get())?;
    push_note_part(alloc, &mut rows, page.notes.get())?;
    push_header_rows(alloc, &mut rows, plan, n, page, footer_of(master))?;
    Ok(Page {
        index: n,
        number: page.number,
        rows,
    })
}

/// The master of a page, if it has one.
fn master_of<'a>(masters: &'a [Master], page: &PageBody) -> Option<&'a Master>
    ensures { option_copied result ≡ master_of masters.now page.now }
{
    match page.master {
        Some(place) => at(masters, place),
        None => None,
    }
}

/// The paragraphs of the header.
fn header_of(master: Option<&Master>) -> &[HeadPar]
    ensures { result.now ≡ header_of (option_copied master.entry) }
{
    match master {
        Some(master) => master.header.get(),
        None => &[],
    }
}

/// The paragraphs of the footer.
fn footer_of(master: Option<&Master>) -> &[HeadPar]
    ensures { result.now ≡ footer_of (option_copied master.entry) }
{
    match master {
        Some(master) => master.footer.get(),
        None => &[],
    }
}

/// Adds the rows of header paragraphs on the page of an index.
fn push_header_rows(
    alloc: Global,
    rows: &mut List<Txt>,
    plan: &Plan,
    index: u32,
    page: &PageBody,
    pars: &[HeadPar],
) -> Result<(), AllocError>
    requires { IsShort plan.now }
    ensures { OnOk result (rows.new ≡ rows.old ++ map (header_row (bodies plan.now) index page.now) pars.now) }
{
    for par in pars {
        rows.push(header_row(alloc, plan, index, page, par)?)?;
    }
    Ok(())
}

/// Adds rows.
fn push_rows(rows: &mut List<Txt>, more: &[Txt]) -> Result<(), AllocError>
    ensures { OnOk result (rows.new ≡ rows.old ++ more.now) }
{
    for row in more {
        rows.push(row.copy()?)?;
    }
    Ok(())
}

/// Adds the note rows of a page behind their separator, where it has some.
fn push_note_part(alloc: Global, rows: &mut List<Txt>, notes: &[Txt]) -> Result<(), AllocError>
    ensures { OnOk result (rows.new ≡ rows.old ++ note_part notes.now) }
{
    if notes.is_empty() {
        return Ok(());
    }
    rows.push(separator(alloc)?)?;
    push_rows(rows, notes)
}

/// The row that stands between the body of a page and its notes.
fn separator(alloc: Global) -> Result<Txt, AllocError>
    ensures { IfOk result (λ row. row ≡ codes "--------") }
{
    Ok(Txt::from_list(String::from_str(alloc, SEPARATOR)?))
}
