//! The paragraphs of a document, laid flat.

ghost use Rattle.std.specs.Prelude.{◌≡◌, ◌+◌, ◌++◌, ◌∷◌, [], List, length, option_copied, option_to_list, IfOk, OnOk};
ghost use Rattle.std.specs.List.{flat_map};
ghost use Rattle.doc_model.specs.declared.list_style.ListStyle.{ListStyle as Style};
ghost use Rattle.doc_model.specs.declared.paragraph.ParHead.{ParHead as Head};
ghost use Rattle.doc_model.specs.Reading.{note_of};
ghost use Rattle.field_model.specs.declared.gathered.Gathered.TheVariants as place;
ghost use Rattle.field_model.specs.Gathered.{GatheredPar};
ghost use Rattle.field_model.specs.Labels.{label_behind};
ghost use Rattle.list_num.specs.Counts.{HaveCounted};
ghost use Rattle.doc_texts.specs.Places.{in_note, in_notes, placed_at, with_notes};
ghost use Rattle.doc_texts.specs.Behind.{all_behind, gathered_behind};
ghost use Rattle.doc_texts.specs.Holds.{AreTexts, HasRead};

use crate::places::{BodyPlace, body_places};
use crate::texts::{ParText, head_of, items_of};
use doc_model::{Document, Item, Label, ListStyle, Note, Par, ParHead, What};
use field_model::Gathered;
use list_num::Counts;
use std::alloc::{AllocError, Global};

/// The paragraphs of a document in reading order, each with where it stands and its label. It goes once through them. A heading
/// of a level above 10, and a list place of another level than 1 to 10, are refused as want of memory is.
pub fn texts_of(alloc: Global, doc: &Document) -> Result<Vec<ParText>, AllocError>
    ensures { IfOk result (λ texts. AreTexts doc.now texts.items) }
{
    let places = body_places(alloc, doc.body.get())?;
    let mut reader = Reader::new(alloc);
    reader.read_all(alloc, doc.lists.get(), &doc.outline, places.as_slice())?;
    Ok(reader.into_texts())
}

/// The paragraphs so far, and what was counted through them.
#[derive(Drop)]
pub(crate) struct Reader {
    pub(crate) texts: Vec<ParText>,
    pub(crate) counts: Counts,
}

impl Reader {
    /// Nothing is read yet.
    fn new(alloc: Global) -> Reader
        ensures { (lists : List Style) → HasRead lists [] result }
    {
        Reader {
            texts: Vec::new(alloc),
            counts: Counts::new(alloc),
        }
    }

    /// The paragraphs.
    fn into_texts(self) -> Vec<ParText>
        ensures { result.items ≡ self.texts.items }
    {
        let Reader { texts, counts: _ } = self;
        texts
    }

    /// Reads paragraphs of a body, each with those of its notes.
    fn read_all(
        &mut self,
        alloc: Global,
        lists: &[ListStyle],
        outline: &ListStyle,
        places: &[BodyPlace],
    ) -> Result<(), AllocError>
        ensures { (before : List GatheredPar) → HasRead lists.now before self.old → OnOk result (HasRead lists.now (all_behind lists.now outline.now before (flat_map (λ lent. with_notes lent.par.now) places.now)) self.new) }
    {
        for lent in places {
            self.read_with_notes(alloc, lists, outline, lent.par)?;
        }
        Ok(())
    }

    /// Reads a paragraph of the body and those of its notes.
    fn read_with_notes(
        &mut self,
        alloc: Global,
        lists: &[ListStyle],
        outline: &ListStyle,
        par: &Par,
    ) -> Result<(), AllocError>
        ensures { (before : List GatheredPar) → HasRead lists.now before self.old → OnOk result (HasRead lists.now (all_behind lists.now outline.now before (with_notes par.now)) self.new) }
    {
        self.read_par(alloc, lists, outline, Gathered::Body, par)?;
        self.read_notes(alloc, lists, outline, par.items.as_slice())
    }

    /// Reads the paragraphs of the notes among items.
    fn read_notes(
        &mut self,
        alloc: Global,
        lists: &[ListStyle],
        outline: &ListStyle,
        items: &[Item],
    ) -> Result<(), AllocError>
        ensures { (before : List GatheredPar) → HasRead lists.now before self.old → OnOk result (HasRead lists.now (all_behind lists.now outline.now before (in_notes 1 (flat_map note_of items.now))) self.new) }
    {
        let mut number = 0;
        for item in items {
            number = self.read_item(alloc, lists, outline, number, item)?;
        }
        Ok(())
    }

    /// Reads the paragraphs of the note that an item is, if it is one, and tells how many notes are behind it.
    fn read_item(
        &mut self,
        alloc: Global,
        lists: &[ListStyle],
        outline: &ListStyle,
        number: u32,
        item: &Item,
    ) -> Result<u32, AllocError>
        ensures number { IfOk result (λ next. next ≡ number + length (note_of item.now)) }
        ensures read { (before : List GatheredPar) → HasRead lists.now before self.old → OnOk result (HasRead lists.now (all_behind lists.now outline.now before (in_notes (number + 1) (note_of item.now))) self.new) }
    {
        match note_of(item) {
            Some(note) => {
                let next = one_more(number)?;
                self.read_note(alloc, lists, outline, next, note)?;
                Ok(next)
            }
            None => Ok(number),
        }
    }

    /// Reads the paragraphs of a note of a number.
    fn read_note(
        &mut self,
        alloc: Global,
        lists: &[ListStyle],
        outline: &ListStyle,
        number: u32,
        note: &Note,
    ) -> Result<(), AllocError>
        ensures { (before : List GatheredPar) → HasRead lists.now before self.old → OnOk result (HasRead lists.now (all_behind lists.now outline.now before (in_note number note.now)) self.new) }
    {
        for par in note.pars.as_slice() {
            self.read_par(alloc, lists, outline, Gathered::Note(number), par)?;
        }
        Ok(())
    }

    /// Reads a paragraph.
    fn read_par(
        &mut self,
        alloc: Global,
        lists: &[ListStyle],
        outline: &ListStyle,
        place: Gathered,
        par: &Par,
    ) -> Result<(), AllocError>
        ensures { (before : List GatheredPar) → HasRead lists.now before self.old → OnOk result (HasRead lists.now (gathered_behind lists.now outline.now before (placed_at place par.now) ∷ before) self.new) }
    {
        let head = head_of(par)?;
        let label = label_of(&mut self.counts, &head, lists, outline)?;
        let items = items_of(alloc, par.items.as_slice())?;
        self.texts.push(ParText {
            place,
            head,
            label,
            items,
        })?;
        Ok(())
    }
}

/// The note that an item is, if it is one.
fn note_of(item: &Item) -> Option<&Note>
    ensures { option_to_list (option_copied result) ≡ note_of item.now }
{
    match &item.what {
        What::Note(note) => Some(note.get()),
        _ => None,
    }
}

/// Counts a paragraph, and answers its label.
fn label_of(
    counts: &mut Counts,
    head: &ParHead,
    lists: &[ListStyle],
    outline: &ListStyle,
) -> Result<Label, AllocError>
    ensures label { (before : List Head) → HaveCounted lists.now before counts.old → IfOk result (λ label. label ≡ label_behind lists.now outline.now before head.now) }
    ensures counted { (before : List Head) → HaveCounted lists.now before counts.old → OnOk result (HaveCounted lists.now (before ++ head.now ∷ []) counts.new) }
{
    if head.level > 10 {
        return Err(AllocError);
    }
    if let Some(place) = &head.list {
        if place.level < 1 {
            return Err(AllocError);
        }
        if place.level > 10 {
            return Err(AllocError);
        }
    }
    counts.label_one(head, lists, outline)
}

/// The number behind one.
fn one_more(number: u32) -> Result<u32, AllocError>
    ensures { IfOk result (λ next. next ≡ number + 1) }
{
    number.checked_add(1).ok_or(AllocError)
}
