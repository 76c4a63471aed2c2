//! The body rows of a paragraph.

ghost use Rattle.std.specs.Prelude.{◌≡◌, ◌+◌, ◌<◌, ◌≤◌, ◌^◌, ◌==◌, ◌||◌, if◌then◌else◌, IfOk, length, Some};
ghost use Rattle.page_model.specs.BodyRows.{blank_rows, breaks, first_of, heading_of, level_behind, level_inside, note_pars, rows_of_par, row_of, set_of_par, stated_master, stated_number, states_master};
ghost use Rattle.style_model.specs.Masters.{place_of_master};
ghost use Rattle.paginate.specs.Uncited.{uncited, uncited_rows as bare_rows};

use crate::names::is_nameless;
use crate::notes::cite_notes;
use doc_model::{BreakAt, Length, List, Master, Name, PageStart, Props, Txt};
use page_model::{First, HeadText, Heading, NoteRows, ParRows, Row};
use std::alloc::{AllocError, Global};

/// The body rows of a paragraph. The first of the paragraphs of its footnotes and itself has this place in the order in
/// which paragraphs are set.
pub fn rows_of_par(
    alloc: Global,
    masters: &[Master],
    place: usize,
    par: &ParRows,
) -> Result<Vec<Row>, AllocError>
    requires { place + note_pars par.now.notes < 2 ^ 64 }
    ensures { IfOk result (λ rows. rows.items ≡ rows_of_par masters.now place par.now) }
{
    let mut rows = uncited_rows(alloc, masters, place, par)?;
    cite_notes(&mut rows, place, par.notes.get())?;
    Ok(rows)
}

/// The body rows of a paragraph, without the rows of its footnotes.
fn uncited_rows(
    alloc: Global,
    masters: &[Master],
    place: usize,
    par: &ParRows,
) -> Result<Vec<Row>, AllocError>
    requires { place + note_pars par.now.notes < 2 ^ 64 }
    ensures { IfOk result (λ rows. rows.items ≡ bare_rows masters.now place par.now 0 par.now.lines) }
{
    let mut rows = Vec::new(alloc);
    let lines = par.lines.get();
    'lines: for (index, line) in lines.iter().enumerate() {
        let behind = lines.len() - index - 1;
        rows.push(uncited_row(alloc, masters, place, par, index, behind, line)?)?;
    }
    Ok(rows)
}

/// The row of a line with so many lines before it and so many behind it, without the rows of footnotes.
fn uncited_row(
    alloc: Global,
    masters: &[Master],
    place: usize,
    par: &ParRows,
    before: usize,
    behind: usize,
    line: &Txt,
) -> Result<Row, AllocError>
    requires place { place + note_pars par.now.notes < 2 ^ 64 }
    requires before { before < 2 ^ 63 }
    ensures { IfOk result (λ row. row ≡ uncited (row_of masters.now place par.now before behind line.now)) }
{
    let is_first = before == 0;
    let is_last = behind == 0;
    let text = line.copy()?;
    let first = if is_first {
        Some(first(masters, place, par)?)
    } else {
        None
    };
    Ok(Row {
        text,
        notes: List::new(alloc),
        level: level(&par.props, before, behind),
        begins: is_first && begins_page(par),
        ends: is_last && breaks(par.props.break_after),
        above: if is_first {
            blank_rows(par.props.margin_top)
        } else {
            0
        },
        below: if is_last {
            blank_rows(par.props.margin_bottom)
        } else {
            0
        },
        first,
    })
}

/// Whether a page must end in front of a paragraph.
fn begins_page(par: &ParRows) -> bool
    ensures { result ≡ (breaks par.now.props.break_before || states_master par.now.master) }
{
    breaks(par.props.break_before) || states_master(par)
}

/// The least level at which a page may end behind so many lines of a paragraph and the next one, and before so many others.
fn level(props: &Props, before: usize, behind: usize) -> u8
    requires { before < 2 ^ 63 }
    ensures { result ≡ (if behind == 0 then level_behind props.now else level_inside props.now (before + 1) behind) }
{
    if behind == 0 {
        level_behind(props)
    } else {
        level_inside(props, before + 1, behind)
    }
}

/// The least level at which a page may end behind a paragraph.
fn level_behind(props: &Props) -> u8
    ensures { result ≡ level_behind props.now }
{
    if props.keep_next.unwrap_or(false) {
        1
    } else {
        0
    }
}

/// The least level at which a page may end between so many lines of a paragraph and so many others.
fn level_inside(props: &Props, before: usize, behind: usize) -> u8
    ensures { result ≡ level_inside props.now before behind }
{
    let orphans = usize::from(props.orphans.unwrap_or(2));
    let widows = usize::from(props.widows.unwrap_or(2));
    if before < orphans || behind < widows {
        2
    } else if props.keep_together.unwrap_or(false) {
        1
    } else {
        0
    }
}

/// The blank rows of a margin, each of a sixth of an inch.
fn blank_rows(margin: Option<Length>) -> u32
    ensures { result ≡ blank_rows margin }
{
    match margin {
        Some(length) => whole_rows(length.units()),
        None => 0,
    }
}

/// The whole rows of so many units, none below 0.
fn whole_rows(units: i32) -> u32
    ensures { result ≡ blank_rows (Some units) }
{
    if units < 0 { 0 } else { units as u32 / 152_400 }
}

/// Whether a break is stated.
fn breaks(stated: Option<BreakAt>) -> bool
    ensures { result ≡ breaks stated }
{
    match stated {
        None => false,
        Some(BreakAt::Auto) => false,
        Some(BreakAt::Column) => true,
        Some(BreakAt::Page) => true,
    }
}

/// Whether a paragraph states a master that isn't the empty name.
fn states_master(par: &ParRows) -> bool
    ensures { result ≡ states_master par.now.master }
{
    match &par.master {
        Some(name) => !is_nameless(name),
        None => false,
    }
}

/// The place of the master that a paragraph states, from 0.
fn stated_master(masters: &[Master], par: &ParRows) -> Option<usize>
    ensures { result ≡ stated_master masters.now par.now.master }
{
    match &par.master {
        Some(name) => master_named(masters, name),
        None => None,
    }
}

/// The place of the master of a name, from 0, and none for the empty name.
fn master_named(masters: &[Master], name: &Name) -> Option<usize>
    ensures { result ≡ stated_master masters.now (Some name.now) }
{
    if is_nameless(name) {
        return None;
    }
    place_named(masters, name)
}

/// The place of the first master of a name, from 0.
fn place_named(masters: &[Master], name: &Name) -> Option<usize>
    ensures { result ≡ place_of_master masters.now name.now }
{
    masters.iter().position(|master| master.name == *name)
}

/// The stated page number.
fn stated_number(stated: Option<PageStart>) -> Option<u16>
    ensures { result ≡ stated_number stated }
{
    match stated {
        Some(PageStart::At(number)) => Some(number),
        Some(PageStart::Auto) => None,
        None => None,
    }
}

/// What the first row of a paragraph brings.
fn first(masters: &[Master], place: usize, par: &ParRows) -> Result<First, AllocError>
    requires { place + note_pars par.now.notes < 2 ^ 64 }
    ensures { IfOk result (λ first. first ≡ first_of masters.now place par.now) }
{
    let heading = heading(par)?;
    Ok(First {
        place: place + note_pars(par.notes.get()),
        master: stated_master(masters, par),
        number: stated_number(par.props.page_number),
        heading,
    })
}

/// How many paragraphs footnotes have.
pub fn note_pars(notes: &[NoteRows]) -> usize
    requires { note_pars notes.now < 2 ^ 64 }
    ensures { result ≡ note_pars notes.now }
{
    let mut count = 0;
    for note in notes {
        count += note.pars.len();
    }
    count
}

/// The heading that a paragraph is.
fn heading(par: &ParRows) -> Result<Option<Heading>, AllocError>
    ensures { IfOk result (λ heading. heading ≡ heading_of par.now) }
{
    if par.level == 0 {
        return Ok(None);
    }
    let label = par.label.copy()?;
    let quote = par.quote.copy()?;
    Ok(Some(Heading {
        level: par.level,
        text: HeadText { label, quote },
    }))
}
