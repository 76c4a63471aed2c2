//! What is kept of the gathered paragraphs.
ghost use Rattle.std.specs.Prelude.{◌≡◌, ◌≤◌, List, [], ◌∷◌, OnOk, OnErr, IfOk, option_copied};
ghost use Rattle.field_model.specs.Gathered.{Event, GatheredPar, events, IsNext};
ghost use Rattle.field_model.specs.Shown.{shown, quote_of, par_of};
ghost use Rattle.field_walk.specs.Holds.{Holds, HoldsEvents};

use crate::groups::{Groups, Texts};
use crate::runs::Runs;
use doc_model::{Item, Label, List, ParHead, ParId, Txt};
use field_model::{
    Gathered, NoteTarget, ParPlace, SequenceTarget, Shown, Spot, Target, VariableSet,
};
use indexmap::IndexMap;
use page_lookup::IndexedTable;
use run_text::RunText;
use std::alloc::{AllocError, Global};

/// What fields ask of the paragraphs that were gathered.
///
/// Paragraphs are gathered in the order of rows: the paragraphs of a note behind the one of the body that has it.
/// Of each one what can be quoted, and what is found by a name or by a place, is kept.
#[derive(Debug, Drop)]
pub struct Walk {
    pub(crate) alloc: Global,
    // How many heads and items were gathered.
    pub(crate) count: usize,
    // Whether the paragraph gathered last stands in a note, and where the item of that note is read.
    pub(crate) in_note: bool,
    pub(crate) anchor: usize,
    // The places of the note items of the paragraph of the body gathered last.
    pub(crate) note_places: Vec<usize>,
    pub(crate) pars: Vec<ParPlace>,
    // The places of paragraphs by their numbers.
    pub(crate) places: IndexMap<u32, usize>,
    // The last heading of at most each level.
    pub(crate) chapters: [Option<usize>; 10],
    pub(crate) footnotes: usize,
    pub(crate) endnotes: usize,
    pub(crate) runs: Runs,
    pub(crate) counted: Texts<Spot>,
    pub(crate) assigned: Texts<VariableSet>,
    pub(crate) marks: Groups<Target>,
    pub(crate) sequences: Groups<SequenceTarget>,
    pub(crate) notes: Groups<NoteTarget>,
}

impl Walk {
    /// A walk that has gathered nothing. It takes no memory.
    pub fn new(alloc: Global) -> Walk
        ensures { Holds result [] }
    {
        Walk {
            alloc,
            count: 0,
            in_note: false,
            anchor: 0,
            note_places: Vec::new(alloc),
            pars: Vec::new(alloc),
            places: IndexMap::new(alloc),
            chapters: [None; 10],
            footnotes: 0,
            endnotes: 0,
            runs: Runs::new(alloc),
            counted: Texts::new(alloc),
            assigned: Texts::new(alloc),
            marks: Groups::new(alloc),
            sequences: Groups::new(alloc),
            notes: Groups::new(alloc),
        }
    }

    /// Gathers the paragraph that comes next in the order of rows: where it stands, its head, its label and its items.
    /// The notes among its items need no paragraphs.
    ///
    /// It costs what the paragraph has. After want of memory the walk is as before the call.
    pub fn gather_one(
        &mut self,
        place: Gathered,
        head: &ParHead,
        label: &Label,
        items: &RunText<Item>,
    ) -> Result<(), AllocError>
        ensures ok { (before : List GatheredPar) → Holds self.old before → IsNext place (events before) → OnOk result (Holds self.new (record { place = place; head = head.now; label = label.now; items = items.now } ∷ before)) }
        ensures err { (before : List GatheredPar) → Holds self.old before → IsNext place (events before) → OnErr result (Holds self.new before) }
    {
        let kept = self.read_head(place, head, label)?;
        match self.read_all(items) {
            Ok(()) => Ok(()),
            Err(fault) => {
                self.forget_head(place, head, kept);
                Err(fault)
            }
        }
    }

    /// What the fields and the note items of the gathered paragraph of this number show, in order, each with its place
    /// among the items. `items` are the paragraph's, and all paragraphs are gathered.
    pub fn show_one(
        &self,
        par: ParId,
        items: &RunText<Item>,
        table: &IndexedTable,
    ) -> Result<List<Shown>, AllocError>
        ensures { (gathered : List GatheredPar) → Holds self.now gathered → IfOk result (λ texts. texts ≡ shown (events gathered) table.now par.0 items.now) }
    {
        match self.place_of(par) {
            Some(place) => self.show_par(place, items, table),
            None => Ok(List::new(self.alloc)),
        }
    }

    /// The quote of the whole gathered paragraph of this number. `items` are the paragraph's, and all paragraphs are
    /// gathered.
    pub fn quote_one(&self, par: ParId, _items: &RunText<Item>) -> Result<Txt, AllocError>
        ensures { (gathered : List GatheredPar) → Holds self.now gathered → IfOk result (λ text. text ≡ quote_of (events gathered) par.0) }
    {
        match self.place_of(par) {
            Some(place) => self.par_text(place),
            None => Ok(Txt::none(self.alloc)),
        }
    }

    // The gathered paragraph of a number.
    pub(crate) fn place_of(&self, par: ParId) -> Option<&ParPlace>
        ensures { (all : List Event) → HoldsEvents self.now all → option_copied result ≡ par_of all par.0 }
    {
        let at = *self.places.get(&par.0)?;
        self.pars.get(at)
    }
}
