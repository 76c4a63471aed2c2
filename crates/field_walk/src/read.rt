//! Gathering: a head, and one item after another.
ghost use Rattle.std.specs.Prelude.{◌≡◌, ◌+◌, ◌++◌, ◌∷◌, ◌-◌, slice_index, List, ℕ, Bool, length, OnOk, OnErr, MatchResult, ◌&&◌, nat_eq, Some, IfOk, [], if◌then◌else◌};
ghost use Rattle.field_model.specs.Gathered.{Event, Head, Letter, Counted, Assigned, Asked, Cited, Marked, Other, field_event, item_event, with_items, IsNext, spot, anchor_of, note_places, is_in_note, same_text};
ghost use Rattle.field_model.specs.Fields.{target, cited, par_place, and_then, when, is_named};
ghost use Rattle.field_walk.specs.Steps.{cited_now, places_behind, places_before};
ghost use Rattle.std.specs.Str.{bytes_eq};
ghost use Rattle.indexmap.specs.IndexMap.{get};
ghost use Rattle.doc_model.specs.declared.field.NoteClass.TheVariants.{Footnote, Endnote};
ghost use Rattle.field_model.specs.declared.gathered.Piece.TheVariants.{Char};
ghost use Rattle.doc_model.specs.Parts.{mark_name};
ghost use Rattle.field_walk.specs.Holds.{HoldsEvents, IsKept};
ghost use Rattle.field_walk.specs.Lists.{list_of, list_in};

use crate::chapters::chapters_with;
use crate::forget::Kept;
use crate::spots::one_more;
use crate::walk::Walk;
use doc_model::{Field, Format, Item, Label, Mark, Name, Note, NoteClass, ParHead, Txt, What};
use field_model::{
    Gathered, NoteTarget, ParPlace, Piece, SequenceTarget, Spot, Target, VariableSet,
};
use run_text::RunText;
use std::alloc::AllocError;
use std::mem;

impl Walk {
    // Where the item is read that comes next.
    fn spot(&self) -> Spot
        ensures { (all : List Event) → HoldsEvents self.now all → result ≡ spot all }
    {
        Spot {
            anchor: if self.in_note {
                self.anchor
            } else {
                self.count
            },
            at: self.count,
        }
    }

    // What a reference to the item points to that comes next.
    fn target(&self) -> Target
        ensures { (all : List Event) → HoldsEvents self.now all → result ≡ target all }
    {
        Target {
            par: self.pars.len().saturating_sub(1),
            in_note: self.in_note,
            spot: self.spot(),
            from: self.runs.get(self.in_note).len(),
        }
    }

    // Gathers the head of a paragraph, and answers what was kept before.
    pub(crate) fn read_head(
        &mut self,
        place: Gathered,
        head: &ParHead,
        label: &Label,
    ) -> Result<Kept, AllocError>
        ensures read { (all : List Event) → HoldsEvents self.old all → IsNext place all → MatchResult result (λ _. HoldsEvents self.new (Head place head.now label.now ∷ all)) (λ _. HoldsEvents self.new all) }
        ensures kept { (all : List Event) → HoldsEvents self.old all → IfOk result (λ kept. IsKept kept place head.now all) }
    {
        let next = one_more(self.count)?;
        let par = self.par_place(place, head, label)?;
        let chapters = par.chapters;
        let anchor = par.anchor;
        let in_note = par.in_note;
        self.runs.push(in_note, Piece::Gap)?;
        match self.keep_par(par) {
            Ok(before) => {
                let kept = self.enter(place, anchor, chapters, before);
                self.count = next;
                Ok(kept)
            }
            Err(fault) => {
                self.runs.pop(in_note, 1);
                Err(fault)
            }
        }
    }

    // Keeps a paragraph behind the others, and answers which had its number before.
    fn keep_par(&mut self, par: ParPlace) -> Result<Option<usize>, AllocError>
        ensures rest { self.new ≡ record self.old { pars = self.new.pars; places = self.new.places } }
        ensures pars { OnOk result (self.new.pars.items ≡ self.old.pars.items ++ par ∷ []) }
        ensures places { OnOk result ((id : ℕ) → get nat_eq self.new.places id ≡ (if nat_eq par.id.0 id then Some (length self.old.pars.items) else get nat_eq self.old.places id)) }
        ensures before { IfOk result (λ before. before ≡ get nat_eq self.old.places par.id.0) }
        ensures same_pars { OnErr result (self.new.pars.items ≡ self.old.pars.items) }
        ensures same_places { OnErr result ((id : ℕ) → get nat_eq self.new.places id ≡ get nat_eq self.old.places id) }
    {
        let id = par.id.0;
        let at = self.pars.len();
        self.pars.push(par)?;
        match self.places.insert(id, at) {
            Ok(before) => Ok(before),
            Err(_) => {
                self.pars.pop();
                Err(AllocError)
            }
        }
    }

    // A paragraph that begins.
    fn par_place(
        &self,
        place: Gathered,
        head: &ParHead,
        label: &Label,
    ) -> Result<ParPlace, AllocError>
        ensures { (all : List Event) → HoldsEvents self.now all → IfOk result (λ par. par ≡ par_place place head.now label.now all) }
    {
        let in_note = self.is_in_note(place);
        let pieces = self.runs.get(in_note).len();
        Ok(ParPlace {
            id: head.id,
            in_note,
            at: self.count,
            anchor: self.place_anchor(place),
            from: one_more(pieces)?,
            footnotes: self.footnotes,
            endnotes: self.endnotes,
            label: label.copy()?,
            chapters: chapters_with(self.chapters, head.level, self.pars.len()),
        })
    }

    // Whether a paragraph stands in a note.
    fn is_in_note(&self, place: Gathered) -> bool
        ensures { result ≡ is_in_note place }
    {
        match place {
            Gathered::Body => false,
            Gathered::Note(_) => true,
        }
    }

    // The place of the item of a paragraph's note.
    fn place_anchor(&self, place: Gathered) -> usize
        ensures { (all : List Event) → HoldsEvents self.now all → result ≡ anchor_of place all }
    {
        match place {
            Gathered::Body => 0,
            Gathered::Note(number) => self.anchor_of(number),
        }
    }

    // Goes into a paragraph, and answers what was kept before. The item of its note has the anchor.
    fn enter(
        &mut self,
        place: Gathered,
        anchor: usize,
        chapters: [Option<usize>; 10],
        before: Option<usize>,
    ) -> Kept
        ensures rest { self.new ≡ record self.old { chapters = chapters; in_note = is_in_note place; anchor = anchor; note_places = self.new.note_places } }
        ensures places { self.new.note_places.items ≡ places_behind place self.old.note_places.items }
        ensures kept { result ≡ record { in_note = self.old.in_note; anchor = self.old.anchor; chapters = self.old.chapters; note_places = result.note_places; before = before } }
        ensures kept_places { places_before place result.note_places.items self.old.note_places.items ≡ self.old.note_places.items }
    {
        let had = self.chapters;
        let mut kept = Kept {
            in_note: self.in_note,
            anchor: self.anchor,
            chapters: had,
            note_places: Vec::new(self.alloc),
            before,
        };
        self.chapters = chapters;
        self.anchor = anchor;
        match place {
            Gathered::Body => {
                self.in_note = false;
                mem::swap(&mut self.note_places, &mut kept.note_places);
            }
            Gathered::Note(_) => self.in_note = true,
        }
        kept
    }

    // Where the item of the note of a number stands.
    fn anchor_of(&self, number: u32) -> usize
        ensures { (all : List Event) → HoldsEvents self.now all → result ≡ slice_index (note_places all) (number - 1) }
    {
        let index = number.saturating_sub(1) as usize;
        self.note_places.get(index).copied().unwrap_or(0)
    }

    // Gathers the items of a paragraph.
    pub(crate) fn read_all(&mut self, items: &RunText<Item>) -> Result<(), AllocError>
        ensures { (all : List Event) → HoldsEvents self.old all → MatchResult result (λ _. HoldsEvents self.new (with_items all items.now)) (λ _. HoldsEvents self.new all) }
    {
        let (front, back) = items.slice(0, items.len());
        self.read_items(front)?;
        match self.read_items(back) {
            Ok(()) => Ok(()),
            Err(fault) => {
                self.forget_items(front);
                Err(fault)
            }
        }
    }

    // Gathers items, one after another.
    fn read_items(&mut self, items: &[Item]) -> Result<(), AllocError>
        ensures { (all : List Event) → HoldsEvents self.old all → MatchResult result (λ _. HoldsEvents self.new (with_items all items.now)) (λ _. HoldsEvents self.new all) }
    {
        for index in 0..items.len() {
            if let Err(fault) = self.read_item(&items[index]) {
                self.forget_items(&items[..index]);
                return Err(fault);
            }
        }
        Ok(())
    }

    // Gathers an item.
    fn read_item(&mut self, item: &Item) -> Result<(), AllocError>
        ensures { (all : List Event) → HoldsEvents self.old all → MatchResult result (λ _. HoldsEvents self.new (item_event item.now ∷ all)) (λ _. HoldsEvents self.new all) }
    {
        match &item.what {
            What::Char(letter) => self.read_letter(*letter),
            What::Tab => self.read_letter(' '),
            What::Break => self.read_letter(' '),
            What::Field(field) => self.read_field(field.get()),
            What::Note(note) => self.read_note(&note.get().id, note.get().class),
            What::Mark(mark) => self.read_mark(mark.get()),
        }
    }

    // Gathers a character.
    fn read_letter(&mut self, letter: char) -> Result<(), AllocError>
        ensures { (all : List Event) → HoldsEvents self.old all → MatchResult result (λ _. HoldsEvents self.new (Letter letter ∷ all)) (λ _. HoldsEvents self.new all) }
    {
        let next = one_more(self.count)?;
        self.runs.push(self.in_note, Piece::Char(letter))?;
        self.count = next;
        Ok(())
    }

    // Gathers a field.
    fn read_field(&mut self, field: &Field) -> Result<(), AllocError>
        ensures { (all : List Event) → HoldsEvents self.old all → MatchResult result (λ _. HoldsEvents self.new (field_event field.now ∷ all)) (λ _. HoldsEvents self.new all) }
    {
        match field {
            Field::Sequence {
                name,
                refname,
                format,
            } => self.read_sequence(name, refname, *format),
            Field::VarSet { name, value } => self.read_set(name, value),
            Field::VarGet { name } => self.read_get(name),
            _ => self.read_other(),
        }
    }

    // Gathers a field that shows nothing to others.
    fn read_other(&mut self) -> Result<(), AllocError>
        ensures { (all : List Event) → HoldsEvents self.old all → MatchResult result (λ _. HoldsEvents self.new (Other ∷ all)) (λ _. HoldsEvents self.new all) }
    {
        self.count = one_more(self.count)?;
        Ok(())
    }

    // Gathers a sequence field.
    fn read_sequence(
        &mut self,
        name: &Name,
        refname: &Name,
        format: Format,
    ) -> Result<(), AllocError>
        ensures { (all : List Event) → HoldsEvents self.old all → MatchResult result (λ _. HoldsEvents self.new (Counted name.now refname.now format ∷ all)) (λ _. HoldsEvents self.new all) }
    {
        let next = one_more(self.count)?;
        let target = self.target();
        let found = SequenceTarget {
            target,
            name: name.copy()?,
            format,
        };
        let piece = Piece::Number(name.copy()?, format, target.spot);
        self.runs.push(self.in_note, piece)?;
        match self.keep_sequence(name, refname, found) {
            Ok(()) => {
                self.count = next;
                Ok(())
            }
            Err(fault) => {
                self.runs.pop(self.in_note, 1);
                Err(fault)
            }
        }
    }

    // Keeps where a sequence field is, under the name that it counts and under its reference name.
    fn keep_sequence(
        &mut self,
        name: &Name,
        refname: &Name,
        found: SequenceTarget,
    ) -> Result<(), AllocError>
        ensures rest { self.new ≡ record self.old { counted = self.new.counted; sequences = self.new.sequences } }
        ensures counted { OnOk result ((noted : Bool) (asked : List ℕ) → list_in self.new.counted noted asked ≡ and_then (list_in self.old.counted noted asked) (when (same_text noted self.old.in_note && bytes_eq asked name.now) found.target.spot)) }
        ensures sequences { OnOk result ((asked : List ℕ) → list_of self.new.sequences asked ≡ and_then (list_of self.old.sequences asked) (when (is_named refname.now && bytes_eq asked refname.now) found)) }
        ensures uncounted { OnErr result ((noted : Bool) (asked : List ℕ) → list_in self.new.counted noted asked ≡ list_in self.old.counted noted asked) }
        ensures unnamed { OnErr result ((asked : List ℕ) → list_of self.new.sequences asked ≡ list_of self.old.sequences asked) }
    {
        let spot = found.target.spot;
        self.counted.push(self.alloc, self.in_note, name, spot)?;
        match self.sequences.push_named(self.alloc, refname, found) {
            Ok(()) => Ok(()),
            Err(fault) => {
                self.counted.pop(self.in_note, name);
                Err(fault)
            }
        }
    }

    // Gathers a field that sets a variable.
    fn read_set(&mut self, name: &Name, value: &Txt) -> Result<(), AllocError>
        ensures { (all : List Event) → HoldsEvents self.old all → MatchResult result (λ _. HoldsEvents self.new (Assigned name.now value.now ∷ all)) (λ _. HoldsEvents self.new all) }
    {
        let next = one_more(self.count)?;
        let set = VariableSet {
            spot: self.spot(),
            value: value.copy()?,
        };
        self.assigned.push(self.alloc, self.in_note, name, set)?;
        match self.runs.push_letters(self.in_note, value.get()) {
            Ok(()) => {
                self.count = next;
                Ok(())
            }
            Err(fault) => {
                self.assigned.pop(self.in_note, name);
                Err(fault)
            }
        }
    }

    // Gathers a field that shows a variable.
    fn read_get(&mut self, name: &Name) -> Result<(), AllocError>
        ensures { (all : List Event) → HoldsEvents self.old all → MatchResult result (λ _. HoldsEvents self.new (Asked name.now ∷ all)) (λ _. HoldsEvents self.new all) }
    {
        let next = one_more(self.count)?;
        let piece = Piece::Variable(name.copy()?, self.spot());
        self.runs.push(self.in_note, piece)?;
        self.count = next;
        Ok(())
    }

    // Gathers the item of a note.
    fn read_note(&mut self, id: &Name, class: NoteClass) -> Result<(), AllocError>
        ensures { (all : List Event) → HoldsEvents self.old all → MatchResult result (λ _. HoldsEvents self.new (Cited id.now class ∷ all)) (λ _. HoldsEvents self.new all) }
    {
        let next = one_more(self.count)?;
        let number = one_more(self.cited(class))?;
        let found = NoteTarget {
            target: self.target(),
            class,
            number,
        };
        self.keep_place()?;
        match self.notes.push_named(self.alloc, id, found) {
            Ok(()) => {
                self.set_cited(class, number);
                self.count = next;
                Ok(())
            }
            Err(fault) => {
                self.forget_place();
                Err(fault)
            }
        }
    }

    // Keeps the place of a note item of the body.
    fn keep_place(&mut self) -> Result<(), AllocError>
        ensures rest { self.new ≡ record self.old { note_places = self.new.note_places } }
        ensures places { OnOk result (self.new.note_places.items ≡ (if self.old.in_note then self.old.note_places.items else self.old.note_places.items ++ self.old.count ∷ [])) }
        ensures same { OnErr result (self.new.note_places.items ≡ self.old.note_places.items) }
    {
        if self.in_note {
            return Ok(());
        }
        self.note_places.push(self.count)?;
        Ok(())
    }

    // Sets how many notes of a class were cited.
    fn set_cited(&mut self, class: NoteClass, number: usize)
        ensures { self.new ≡ record self.old { footnotes = cited_now Footnote class number self.old.footnotes; endnotes = cited_now Endnote class number self.old.endnotes } }
    {
        match class {
            NoteClass::Footnote => self.footnotes = number,
            NoteClass::Endnote => self.endnotes = number,
        }
    }

    // How many notes of a class were cited.
    fn cited(&self, class: NoteClass) -> usize
        ensures { (all : List Event) → HoldsEvents self.now all → result ≡ cited class all }
    {
        match class {
            NoteClass::Footnote => self.footnotes,
            NoteClass::Endnote => self.endnotes,
        }
    }

    // Gathers a mark of a bookmark.
    fn read_mark(&mut self, mark: &Mark) -> Result<(), AllocError>
        ensures { (all : List Event) → HoldsEvents self.old all → MatchResult result (λ _. HoldsEvents self.new (Marked (mark_name mark.now) ∷ all)) (λ _. HoldsEvents self.new all) }
    {
        let next = one_more(self.count)?;
        let target = self.target();
        self.marks.push(self.alloc, name_of(mark), target)?;
        self.count = next;
        Ok(())
    }
}

// The name of a mark's bookmark.
pub(crate) fn name_of(mark: &Mark) -> &Name
    ensures { result.now ≡ mark_name mark.now }
{
    match mark {
        Mark::Point(name) => name,
        Mark::Start(name) => name,
        Mark::End(name) => name,
    }
}
