//! What the fields of headers and footers show.

ghost use Rattle.std.specs.Prelude.{◌≡◌, ◌≤◌, ◌-◌, ◌++◌, [], option_copied, IfOk, OnOk, Some, pos, ◌+ℤ◌};
ghost use Rattle.field_model.specs.Cut.{cut};
ghost use Rattle.field_model.specs.Shown.{joined, page_at, page_text, page_number_text, page_count_text, select_pages};
ghost use Rattle.page_print.specs.Headers.{chapter_of, header_field, heading_of, table_of};
ghost use Rattle.paginate.specs.Placed.{bodies, IsShort};

use doc_model::{ChapterShow, Field, Format, PageAdjust, Select, Txt};
use number_text::{CutText, push_number};
use page_model::{HeadText, PageBody};
use paginate::Plan;
use sqlite_items::at;
use std::alloc::{AllocError, Global};

/// What a field of a header shows on the page of an index, from 1.
pub fn header_field(
    alloc: Global,
    plan: &Plan,
    index: u32,
    page: &PageBody,
    field: &Field,
) -> Result<Txt, AllocError>
    requires { IsShort plan.now }
    ensures { IfOk result (λ text. text ≡ header_field (bodies plan.now) index page.now field.now) }
{
    let mut out = CutText::new(alloc);
    push_field(alloc, &mut out, plan, index, page, field)?;
    Ok(out.into_txt())
}

/// Adds what a field of a header shows.
fn push_field(
    alloc: Global,
    out: &mut CutText,
    plan: &Plan,
    index: u32,
    page: &PageBody,
    field: &Field,
) -> Result<(), AllocError>
    requires { IsShort plan.now }
    ensures { out.old ≡ [] → OnOk result (out.new ≡ header_field (bodies plan.now) index page.now field.now) }
{
    match field {
        Field::PageNumber {
            select,
            adjust,
            format,
        } => push_page_number(out, plan, index, *select, *adjust, *format),
        Field::PageCount { format } => push_number(out, *format, plan.count() as u64),
        Field::Chapter { display, level } => {
            push_chapter(alloc, out, *display, heading_of(page, *level))
        }
        _ => Ok(()),
    }
}

/// How far a page is from that of the field.
fn select_pages(select: Select) -> i64
    ensures { result ≡ select_pages select }
{
    match select {
        Select::Previous => -1,
        Select::Current => 0,
        Select::Next => 1,
    }
}

/// Adds what a page number field shows on the page of an index.
fn push_page_number(
    out: &mut CutText,
    plan: &Plan,
    index: u32,
    select: Select,
    adjust: PageAdjust,
    format: Format,
) -> Result<(), AllocError>
    requires { IsShort plan.now }
    ensures { OnOk result (out.new ≡ cut (out.old ++ page_number_text (table_of (bodies plan.now)) (Some index) select adjust format)) }
{
    push_sum(out, plan, format, shown_page(index, select, adjust))
}

/// The index of the page whose number a page number field shows on the page of an index.
fn shown_page(index: u32, select: Select, adjust: PageAdjust) -> i64
    ensures { result ≡ (pos index +ℤ select_pages select) +ℤ adjust }
{
    index as i64 + select_pages(select) + adjust.pages() as i64
}

/// Adds the number of the page of an index that may be below 0.
fn push_sum(out: &mut CutText, plan: &Plan, format: Format, index: i64) -> Result<(), AllocError>
    requires { IsShort plan.now }
    ensures { OnOk result (out.new ≡ cut (out.old ++ page_text (table_of (bodies plan.now)) format index)) }
{
    if index < 0 {
        return push_nothing(out);
    }
    push_page(out, plan, format, index as u64)
}

/// Adds the number of the page of an index, from 1, where there is such a page.
fn push_page(out: &mut CutText, plan: &Plan, format: Format, index: u64) -> Result<(), AllocError>
    requires { IsShort plan.now }
    ensures { OnOk result (out.new ≡ cut (out.old ++ page_at (table_of (bodies plan.now)) format index)) }
{
    if index == 0 {
        return push_nothing(out);
    }
    if index > plan.count() as u64 {
        return push_nothing(out);
    }
    push_number(out, format, plan.body(index as u32).number as u64)
}

/// The last heading of at most a level from 1 on that stands on a page or an earlier one.
fn heading_of(page: &PageBody, level: u8) -> Option<&HeadText>
    ensures { option_copied result ≡ heading_of page.now level }
{
    match at(page.heads.get(), level.saturating_sub(1) as usize) {
        Some(Some(head)) => Some(head),
        _ => None,
    }
}

/// Adds what a chapter field shows of its heading.
fn push_chapter(
    alloc: Global,
    out: &mut CutText,
    shows: ChapterShow,
    heading: Option<&HeadText>,
) -> Result<(), AllocError>
    ensures { OnOk result (out.new ≡ cut (out.old ++ chapter_of shows (option_copied heading.entry))) }
{
    match heading {
        Some(head) => match shows {
            ChapterShow::Name => push_text(out, &head.quote),
            ChapterShow::Number => push_text(out, &head.label.full),
            ChapterShow::PlainNumber => push_text(out, &head.label.plain),
            ChapterShow::NumberAndName => push_joined(alloc, out, &head.label.full, &head.quote),
            ChapterShow::PlainNumberAndName => push_joined(
                alloc,
                out,
                &head.label.plain,
                &head.quote,
            ),
        },
        None => push_nothing(out),
    }
}

/// Adds a number and a name, joined by a space, or the name alone where the number is empty.
fn push_joined(alloc: Global, out: &mut CutText, number: &Txt, name: &Txt) -> Result<(), AllocError>
    ensures { OnOk result (out.new ≡ cut (out.old ++ joined number.now name.now)) }
{
    if number.is_same(&Txt::none(alloc)) {
        return push_text(out, name);
    }
    push_text(out, number)?;
    out.push(' ')?;
    push_text(out, name)
}

/// Adds a text.
fn push_text(out: &mut CutText, text: &Txt) -> Result<(), AllocError>
    ensures { OnOk result (out.new ≡ cut (out.old ++ text.now)) }
{
    out.push_str(text.get())
}

/// Adds nothing.
fn push_nothing(out: &mut CutText) -> Result<(), AllocError>
    ensures { OnOk result (out.new ≡ cut (out.old ++ [])) }
{
    let _full = out.is_full();
    Ok(())
}
