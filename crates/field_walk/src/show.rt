//! The texts of a paragraph's fields and the citations of its notes.
ghost use Rattle.std.specs.Prelude.{◌≡◌, ◌+◌, ◌++◌, ◌∷◌, [], List, OnOk, IfOk, length};
ghost use Rattle.doc_model.specs.declared.paragraph.Item.{Item};
ghost use Rattle.field_model.specs.Gathered.{Event};
ghost use Rattle.field_model.specs.Shown.{field_text, shown_in, shown_item, shown_behind, item_spot, citation, cited_before, cited_in};
ghost use Rattle.field_walk.specs.Holds.{HoldsEvents};
ghost use Rattle.field_walk.specs.Seen.{HasSeen};
ghost use Rattle.field_model.specs.declared.gathered.ParPlace.{ParPlace};
ghost use Rattle.field_model.specs.Cut.{cut};

use crate::pages::{push_page_count, push_page_number};
use crate::refs::push_note_number;
use crate::spots::one_more;
use crate::texts::push_text;
use crate::walk::Walk;
use doc_model::{Field, Item, List, NoteClass, What};
use field_model::{ParPlace, Shown, Spot};
use number_text::CutText;
use page_lookup::IndexedTable;
use run_text::RunText;
use std::alloc::AllocError;

/// How many items of a paragraph were seen, and how many notes were cited up to there.
#[derive(Debug, Clone, Copy)]
pub(crate) struct Seen {
    pub(crate) index: u32,
    pub(crate) footnotes: usize,
    pub(crate) endnotes: usize,
}

// No item of a paragraph was seen.
pub(crate) fn none_seen(par: &ParPlace) -> Seen
    ensures { HasSeen par.now result [] }
{
    Seen {
        index: 0,
        footnotes: par.footnotes,
        endnotes: par.endnotes,
    }
}

impl Walk {
    // What the fields and the notes of a gathered paragraph show.
    pub(crate) fn show_par(
        &self,
        par: &ParPlace,
        items: &RunText<Item>,
        table: &IndexedTable,
    ) -> Result<List<Shown>, AllocError>
        ensures { (all : List Event) → HoldsEvents self.now all → IfOk result (λ texts. texts ≡ shown_in all table.now par.now items.now) }
    {
        let mut shown = List::new(self.alloc);
        let (front, back) = items.slice(0, items.len());
        let seen = self.show_items(par, table, none_seen(par), front, &mut shown)?;
        let _all = self.show_items(par, table, seen, back, &mut shown)?;
        Ok(shown)
    }

    // Adds what items show behind those that were seen, one after another.
    pub(crate) fn show_items(
        &self,
        par: &ParPlace,
        table: &IndexedTable,
        seen: Seen,
        items: &[Item],
        shown: &mut List<Shown>,
    ) -> Result<Seen, AllocError>
        ensures seen { (front : List Item) → HasSeen par.now seen front → IfOk result (λ now. HasSeen par.now now (front ++ items.now)) }
        ensures shown { (all : List Event) (front : List Item) → HoldsEvents self.now all → HasSeen par.now seen front → OnOk result (shown.new ≡ shown.old ++ shown_behind all table.now par.now front items.now) }
    {
        let mut now = seen;
        for item in items {
            self.show_item(par, table, now, item, shown)?;
            now = see_item(now, item)?;
        }
        Ok(now)
    }

    // Adds what an item shows, if it is a field or the item of a note.
    fn show_item(
        &self,
        par: &ParPlace,
        table: &IndexedTable,
        seen: Seen,
        item: &Item,
        shown: &mut List<Shown>,
    ) -> Result<(), AllocError>
        ensures { (all : List Event) (front : List Item) → HoldsEvents self.now all → HasSeen par.now seen front → OnOk result (shown.new ≡ shown.old ++ shown_item all table.now par.now front item.now) }
    {
        match &item.what {
            What::Field(field) => {
                let mut out = CutText::new(self.alloc);
                let here = spot_in(par, seen.index)?;
                self.push_field(&mut out, par, table, here, field.get())?;
                let text = out.into_txt();
                shown.push(Shown {
                    item: seen.index,
                    text,
                })?;
                Ok(())
            }
            What::Note(note) => {
                self.show_note(par, seen, note.get().class, shown)?;
                Ok(())
            }
            _ => Ok(()),
        }
    }

    // Adds the citation of a note of a class.
    fn show_note(
        &self,
        par: &ParPlace,
        seen: Seen,
        class: NoteClass,
        shown: &mut List<Shown>,
    ) -> Result<(), AllocError>
        ensures { (front : List Item) → HasSeen par.now seen front → OnOk result (shown.new ≡ shown.old ++ (record { item = length front; text = cut (citation class (cited_before class par.now + cited_in class front + 1)) }) ∷ []) }
    {
        let mut out = CutText::new(self.alloc);
        let number = one_more(cited_up_to(par, seen, class))?;
        push_citation(&mut out, class, number as u64)?;
        let text = out.into_txt();
        shown.push(Shown {
            item: seen.index,
            text,
        })?;
        Ok(())
    }

    // Adds what a field shows that stands in a paragraph at a place.
    fn push_field(
        &self,
        out: &mut CutText,
        par: &ParPlace,
        table: &IndexedTable,
        here: Spot,
        field: &Field,
    ) -> Result<(), AllocError>
        ensures { (all : List Event) → HoldsEvents self.now all → OnOk result (out.new ≡ cut (out.old ++ field_text all table.now par.now here field.now)) }
    {
        match field {
            Field::Sequence { name, format, .. } => self.push_counted(out, name, *format, here),
            Field::VarSet { value, .. } => push_text(out, value),
            Field::VarGet { name } => self.push_value(out, name, here),
            Field::Chapter { display, level } => {
                self.push_chapter(out, *display, self.heading(par, *level))
            }
            Field::PageNumber {
                select,
                adjust,
                format,
            } => push_page_number(out, table, table.page_of(par.id), *select, *adjust, *format),
            Field::PageCount { format } => {
                push_page_count(out, table, table.page_of(par.id), *format)
            }
            Field::BookRef { name, form } => self.push_bookmark(out, table, here, name, *form),
            Field::SeqRef { name, form } => self.push_sequence(out, table, here, name, *form),
            Field::NoteRef { name, form, .. } => self.push_note(out, table, here, name, *form),
        }
    }
}

// One item more was seen.
fn see_item(seen: Seen, item: &Item) -> Result<Seen, AllocError>
    ensures { (par : ParPlace) (front : List Item) → HasSeen par seen front → IfOk result (λ now. HasSeen par now (front ++ item.now ∷ [])) }
{
    let mut now = seen;
    now.index = seen.index.checked_add(1).ok_or(AllocError)?;
    if let What::Note(note) = &item.what {
        match note.get().class {
            NoteClass::Footnote => now.footnotes = one_more(seen.footnotes)?,
            NoteClass::Endnote => now.endnotes = one_more(seen.endnotes)?,
        }
    }
    Ok(now)
}

// How many notes of a class were cited.
fn cited_up_to(par: &ParPlace, seen: Seen, class: NoteClass) -> usize
    ensures { (front : List Item) → HasSeen par.now seen front → result ≡ cited_before class par.now + cited_in class front }
{
    let _first = par.footnotes;
    match class {
        NoteClass::Footnote => seen.footnotes,
        NoteClass::Endnote => seen.endnotes,
    }
}

// Where the item is read that comes behind so many of a paragraph.
fn spot_in(par: &ParPlace, index: u32) -> Result<Spot, AllocError>
    ensures { IfOk result (λ here. here ≡ item_spot par.now index) }
{
    let first = one_more(par.at)?;
    let at = first.checked_add(index as usize).ok_or(AllocError)?;
    Ok(Spot {
        anchor: if par.in_note { par.anchor } else { at },
        at,
    })
}

// Adds the citation of a note.
fn push_citation(out: &mut CutText, class: NoteClass, number: u64) -> Result<(), AllocError>
    ensures { OnOk result (out.new ≡ cut (out.old ++ citation class number)) }
{
    out.push('[')?;
    push_note_number(out, class, number)?;
    out.push(']')?;
    Ok(())
}
