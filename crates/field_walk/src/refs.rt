//! References.
ghost use Rattle.std.specs.Prelude.{◌≡◌, ◌++◌, List, OnOk, option_copied, length};
ghost use Rattle.field_model.specs.Gathered.{Event};
ghost use Rattle.field_model.specs.Fields.{marks, sequence_targets, note_targets};
ghost use Rattle.field_model.specs.Shown.{page_form, chapter_form, direction_form, par_start, bookmark_text, marked_text, sequence_text, note_text, note_number_text, first_of, last_of, own_page, missing};
ghost use Rattle.std.specs.Prelude.{Some};
ghost use Rattle.field_walk.specs.Holds.{HoldsEvents};
ghost use Rattle.field_model.specs.Cut.{cut};

use crate::pages::push_page;
use crate::spots::{is_before, one_more};
use crate::texts::push_nothing;
use crate::walk::Walk;
use doc_model::{ChapterShow, Format, Name, NoteClass, RefForm, SeqForm};
use field_model::{ParPlace, SequenceTarget, Spot, Target};
use number_text::{CutText, push_number};
use page_lookup::IndexedTable;
use sqlite_items::at;
use std::alloc::AllocError;

impl Walk {
    // Adds the number of the page of a target's paragraph, where it has one.
    fn push_page_form(
        &self,
        out: &mut CutText,
        table: &IndexedTable,
        target: Target,
    ) -> Result<(), AllocError>
        ensures { (all : List Event) → HoldsEvents self.now all → OnOk result (out.new ≡ cut (out.old ++ page_form all table.now target)) }
    {
        match at(self.pars.as_slice(), target.par) {
            Some(par) => push_own_page(out, table, par),
            None => push_nothing(out),
        }
    }

    // Adds the label of the last heading at or before a target's paragraph.
    fn push_chapter_form(&self, out: &mut CutText, target: Target) -> Result<(), AllocError>
        ensures { (all : List Event) → HoldsEvents self.now all → OnOk result (out.new ≡ cut (out.old ++ chapter_form all target)) }
    {
        match at(self.pars.as_slice(), target.par) {
            Some(par) => self.push_chapter(out, ChapterShow::Number, self.heading(par, 10)),
            None => push_nothing(out),
        }
    }

    // The start of a target's paragraph among what is quoted.
    fn par_start(&self, target: Target) -> usize
        ensures { (all : List Event) → HoldsEvents self.now all → result ≡ par_start all target }
    {
        match at(self.pars.as_slice(), target.par) {
            Some(par) => par.from,
            None => 0,
        }
    }

    // Adds what a reference to a bookmark shows.
    pub(crate) fn push_bookmark(
        &self,
        out: &mut CutText,
        table: &IndexedTable,
        here: Spot,
        name: &Name,
        form: RefForm,
    ) -> Result<(), AllocError>
        ensures { (all : List Event) → HoldsEvents self.now all → OnOk result (out.new ≡ cut (out.old ++ bookmark_text all table.now here form (first_of (marks name.now all)) (last_of (marks name.now all)))) }
    {
        let marks = self.marks.get(name);
        match first_of(marks) {
            Some(first) => match form {
                RefForm::Text => self.push_marked(out, *first, last_of(marks)),
                RefForm::Page => self.push_page_form(out, table, *first),
                RefForm::Chapter => self.push_chapter_form(out, *first),
                RefForm::Direction => push_direction(out, *first, here),
            },
            None => push_missing(out),
        }
    }

    // Adds the quote between two marks, if both stand in one text.
    fn push_marked(
        &self,
        out: &mut CutText,
        first: Target,
        last: Option<&Target>,
    ) -> Result<(), AllocError>
        ensures { (all : List Event) → HoldsEvents self.now all → OnOk result (out.new ≡ cut (out.old ++ marked_text all first (option_copied last.entry))) }
    {
        match last {
            Some(last) => {
                if first.in_note == last.in_note {
                    return self.push_between(out, first.in_note, first.from, last.from);
                }
                push_nothing(out)
            }
            None => push_nothing(out),
        }
    }

    // Adds what a reference to a sequence field shows.
    pub(crate) fn push_sequence(
        &self,
        out: &mut CutText,
        table: &IndexedTable,
        here: Spot,
        name: &Name,
        form: SeqForm,
    ) -> Result<(), AllocError>
        ensures { (all : List Event) → HoldsEvents self.now all → OnOk result (out.new ≡ cut (out.old ++ sequence_text all table.now here form (first_of (sequence_targets name.now all)))) }
    {
        match first_of(self.sequences.get(name)) {
            Some(field) => self.push_found(out, table, here, field, form),
            None => push_missing(out),
        }
    }

    // Adds what a reference to a sequence field shows.
    fn push_found(
        &self,
        out: &mut CutText,
        table: &IndexedTable,
        here: Spot,
        field: &SequenceTarget,
        form: SeqForm,
    ) -> Result<(), AllocError>
        ensures { (all : List Event) → HoldsEvents self.now all → OnOk result (out.new ≡ cut (out.old ++ sequence_text all table.now here form (Some field.now))) }
    {
        let target = field.target;
        match form {
            SeqForm::Text => self.push_from(out, target.in_note, self.par_start(target)),
            SeqForm::Page => self.push_page_form(out, table, target),
            SeqForm::Chapter => self.push_chapter_form(out, target),
            SeqForm::Direction => push_direction(out, target, here),
            SeqForm::Value => self.push_counted(out, &field.name, field.format, target.spot),
            SeqForm::CategoryAndValue => {
                let to = one_more(target.from)?;
                self.push_between(out, target.in_note, self.par_start(target), to)?;
                Ok(())
            }
            SeqForm::Caption => {
                let from = one_more(target.from)?;
                self.push_from(out, target.in_note, from)?;
                Ok(())
            }
        }
    }

    // Adds what a reference to a note shows.
    pub(crate) fn push_note(
        &self,
        out: &mut CutText,
        table: &IndexedTable,
        here: Spot,
        id: &Name,
        form: RefForm,
    ) -> Result<(), AllocError>
        ensures { (all : List Event) → HoldsEvents self.now all → OnOk result (out.new ≡ cut (out.old ++ note_text all table.now here form (first_of (note_targets id.now all)))) }
    {
        match first_of(self.notes.get(id)) {
            Some(note) => match form {
                RefForm::Text => push_note_number(out, note.class, note.number as u64),
                RefForm::Page => self.push_page_form(out, table, note.target),
                RefForm::Chapter => self.push_chapter_form(out, note.target),
                RefForm::Direction => push_direction(out, note.target, here),
            },
            None => push_missing(out),
        }
    }
}

// Adds where a target stands, as seen from a place.
fn push_direction(out: &mut CutText, target: Target, here: Spot) -> Result<(), AllocError>
    ensures { OnOk result (out.new ≡ cut (out.old ++ direction_form target here)) }
{
    if is_before(target.spot, here) {
        out.push_str("above")?;
        return Ok(());
    }
    out.push_str("below")?;
    Ok(())
}

// Adds the number of a note.
pub(crate) fn push_note_number(
    out: &mut CutText,
    class: NoteClass,
    number: u64,
) -> Result<(), AllocError>
    ensures { OnOk result (out.new ≡ cut (out.old ++ note_number_text class number)) }
{
    match class {
        NoteClass::Footnote => push_number(out, Format::Digits, number),
        NoteClass::Endnote => push_number(out, Format::LowerRoman, number),
    }
}

// Adds the number of the page of a paragraph, where it has one.
fn push_own_page(out: &mut CutText, table: &IndexedTable, par: &ParPlace) -> Result<(), AllocError>
    ensures { OnOk result (out.new ≡ cut (out.old ++ own_page table.now par.now)) }
{
    match table.page_of(par.id) {
        Some(index) => push_page(out, table, Format::Digits, index as u64),
        None => push_nothing(out),
    }
}

// Adds what stands for a missing target.
fn push_missing(out: &mut CutText) -> Result<(), AllocError>
    ensures { OnOk result (out.new ≡ cut (out.old ++ missing)) }
{
    out.push('?')?;
    Ok(())
}

// The first one.
fn first_of<T>(list: &[T]) -> Option<&T>
    ensures { option_copied result ≡ first_of list.now }
{
    match list {
        [first, ..] => Some(first),
        [] => None,
    }
}

// How many there are.
fn count_of<T>(list: &[T]) -> usize
    ensures { result ≡ length list.now }
{
    list.len()
}

// The last one.
fn last_of<T>(list: &[T]) -> Option<&T>
    ensures { option_copied result ≡ last_of list.now }
{
    let count = count_of(list);
    if count == 0 {
        return None;
    }
    at(list, count - 1)
}
