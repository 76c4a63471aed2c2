//! Taking back what was gathered last.
ghost use Rattle.std.specs.Prelude.{◌≡◌, ◌∷◌, ◌-◌, List, ℕ, length, take, IsSome, Some, nat_eq, if◌then◌else◌};
ghost use Rattle.doc_model.specs.declared.field.NoteClass.TheVariants.{Footnote, Endnote};
ghost use Rattle.doc_model.specs.declared.field.Format.{Format};
ghost use Rattle.doc_model.specs.declared.page.Label.{Label};
ghost use Rattle.doc_model.specs.Parts.{mark_name};
ghost use Rattle.indexmap.specs.IndexMap.{get};
ghost use Rattle.field_model.specs.Gathered.{Event, Head, Letter, Counted, Assigned, Asked, Cited, Marked, Other, field_event, item_event, with_items};
ghost use Rattle.field_walk.specs.Steps.{cited_before, places_before};
ghost use Rattle.field_walk.specs.Holds.{HoldsEvents, IsKept};

use crate::read::name_of;
use crate::runs::quoted;
use crate::walk::Walk;
use doc_model::{Field, Item, Mark, Name, NoteClass, ParHead, Txt, What};
use field_model::Gathered;
use indexmap::IndexMap;

/// What was kept before a paragraph began.
#[derive(Debug, Drop)]
pub(crate) struct Kept {
    pub(crate) in_note: bool,
    pub(crate) anchor: usize,
    pub(crate) chapters: [Option<usize>; 10],
    // The places of note items, where the paragraph is one of the body.
    pub(crate) note_places: Vec<usize>,
    // The place of the paragraph that had the number.
    pub(crate) before: Option<usize>,
}

impl Walk {
    // Takes back a head.
    pub(crate) fn forget_head(&mut self, place: Gathered, head: &ParHead, kept: Kept)
        ensures { (label : Label) (all : List Event) → HoldsEvents self.old (Head place head.now label ∷ all) → IsKept kept place head.now all → HoldsEvents self.new all }
    {
        self.runs.pop(self.in_note, 1);
        self.pars.pop();
        restore_place(&mut self.places, head.id.0, kept.before);
        self.leave(place, kept);
        self.count = self.count.saturating_sub(1);
    }

    // Goes back to where a paragraph began.
    fn leave(&mut self, place: Gathered, kept: Kept)
        ensures rest { self.new ≡ record self.old { in_note = kept.in_note; anchor = kept.anchor; chapters = kept.chapters; note_places = self.new.note_places } }
        ensures places { self.new.note_places.items ≡ places_before place kept.note_places.items self.old.note_places.items }
    {
        let chapters = kept.chapters;
        self.in_note = kept.in_note;
        self.anchor = kept.anchor;
        self.chapters = chapters;
        match place {
            Gathered::Body => self.note_places = kept.note_places,
            Gathered::Note(_) => {}
        }
    }

    // Takes back items, the last one first.
    pub(crate) fn forget_items(&mut self, items: &[Item])
        ensures { (all : List Event) → HoldsEvents self.old (with_items all items.now) → HoldsEvents self.new all }
    {
        let mut left = items;
        'items: while let Some((last, front)) = left.split_last() {
            self.forget_item(last);
            left = front;
        }
    }

    // Takes back an item.
    fn forget_item(&mut self, item: &Item)
        ensures { (all : List Event) → HoldsEvents self.old (item_event item.now ∷ all) → HoldsEvents self.new all }
    {
        match &item.what {
            What::Char(letter) => self.forget_letter(*letter),
            What::Tab => self.forget_letter(' '),
            What::Break => self.forget_letter(' '),
            What::Field(field) => self.forget_field(field.get()),
            What::Note(note) => self.forget_note(&note.get().id, note.get().class),
            What::Mark(mark) => self.forget_mark(mark.get()),
        }
    }

    // Takes back a field.
    fn forget_field(&mut self, field: &Field)
        ensures { (all : List Event) → HoldsEvents self.old (field_event field.now ∷ all) → HoldsEvents self.new all }
    {
        match field {
            Field::Sequence { name, refname, .. } => self.forget_sequence(name, refname),
            Field::VarSet { name, value } => self.forget_set(name, value),
            Field::VarGet { .. } => self.forget_piece(),
            _ => self.forget_other(),
        }
    }

    // Takes back a character.
    fn forget_letter(&mut self, _letter: char)
        ensures { (all : List Event) → HoldsEvents self.old (Letter _letter ∷ all) → HoldsEvents self.new all }
    {
        self.forget_piece();
    }

    // Takes back a character, or a field that shows a variable.
    fn forget_piece(&mut self)
        ensures letter { (letter : ℕ) (all : List Event) → HoldsEvents self.old (Letter letter ∷ all) → HoldsEvents self.new all }
        ensures asked { (name : List ℕ) (all : List Event) → HoldsEvents self.old (Asked name ∷ all) → HoldsEvents self.new all }
    {
        self.runs.pop(self.in_note, 1);
        self.count = self.count.saturating_sub(1);
    }

    // Takes back a field that shows nothing to others.
    fn forget_other(&mut self)
        ensures { (all : List Event) → HoldsEvents self.old (Other ∷ all) → HoldsEvents self.new all }
    {
        self.count = self.count.saturating_sub(1);
    }

    // Takes back a sequence field.
    fn forget_sequence(&mut self, name: &Name, refname: &Name)
        ensures { (format : Format) (all : List Event) → HoldsEvents self.old (Counted name.now refname.now format ∷ all) → HoldsEvents self.new all }
    {
        self.sequences.pop_named(self.alloc, refname);
        self.counted.pop(self.in_note, name);
        self.runs.pop(self.in_note, 1);
        self.count = self.count.saturating_sub(1);
    }

    // Takes back a field that sets a variable.
    fn forget_set(&mut self, name: &Name, value: &Txt)
        ensures { (all : List Event) → HoldsEvents self.old (Assigned name.now value.now ∷ all) → HoldsEvents self.new all }
    {
        self.assigned.pop(self.in_note, name);
        self.runs.pop(self.in_note, quoted(value.get()));
        self.count = self.count.saturating_sub(1);
    }

    // Takes back the item of a note.
    fn forget_note(&mut self, id: &Name, class: NoteClass)
        ensures { (all : List Event) → HoldsEvents self.old (Cited id.now class ∷ all) → HoldsEvents self.new all }
    {
        self.notes.pop_named(self.alloc, id);
        self.forget_place();
        self.uncite(class);
        self.count = self.count.saturating_sub(1);
    }

    // Takes back the place of a note item of the body.
    pub(crate) fn forget_place(&mut self)
        ensures rest { self.new ≡ record self.old { note_places = self.new.note_places } }
        ensures places { self.new.note_places.items ≡ (if self.old.in_note then self.old.note_places.items else take (length self.old.note_places.items - 1) self.old.note_places.items) }
    {
        if self.in_note {
            return;
        }
        self.note_places.pop();
    }

    // One note of a class less was cited.
    fn uncite(&mut self, class: NoteClass)
        ensures { self.new ≡ record self.old { footnotes = cited_before Footnote class self.old.footnotes; endnotes = cited_before Endnote class self.old.endnotes } }
    {
        match class {
            NoteClass::Footnote => self.footnotes = self.footnotes.saturating_sub(1),
            NoteClass::Endnote => self.endnotes = self.endnotes.saturating_sub(1),
        }
    }

    // Takes back a mark of a bookmark.
    fn forget_mark(&mut self, mark: &Mark)
        ensures { (all : List Event) → HoldsEvents self.old (Marked (mark_name mark.now) ∷ all) → HoldsEvents self.new all }
    {
        self.marks.pop(name_of(mark));
        self.count = self.count.saturating_sub(1);
    }
}

// Gives a number back to the place that had it before, or to none.
fn restore_place(places: &mut IndexMap<u32, usize>, id: u32, before: Option<usize>)
    ensures { IsSome (get nat_eq places.old id) → (asked : ℕ) → get nat_eq places.new asked ≡ (if nat_eq id asked then before else get nat_eq places.old asked) }
{
    match before {
        Some(at) => set_place(places, id, at),
        None => {
            places.swap_remove(&id);
        }
    }
}

// Gives a number that has a place another one.
fn set_place(places: &mut IndexMap<u32, usize>, id: u32, at: usize)
    ensures { IsSome (get nat_eq places.old id) → (asked : ℕ) → get nat_eq places.new asked ≡ (if nat_eq id asked then Some at else get nat_eq places.old asked) }
{
    if let Some(place) = places.get_mut(&id) {
        *place = at;
    }
}
