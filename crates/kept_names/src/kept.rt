//! What is kept of what is met.
ghost use Rattle.std.specs.Prelude.{◌≡◌, List, map, IfOk};
ghost use Rattle.load_model.specs.Met as model;
ghost use Rattle.load_model.specs.Met.{is_at};
ghost use Rattle.met_read.specs.Read.{met_of, outlined};
ghost use Rattle.kept_names.specs.Kept.{IsSame};

use crate::bookmarks::mark_places;
use crate::firsts::{Kind, first_places};
use crate::places::Places;
use met_read::Met;
use std::alloc::{AllocError, Global};
use std::marker::Model;

/// The places of the sections and marks that are kept, and of the notes and sequence fields whose own name is.
#[derive(Drop)]
pub struct Kept {
    sections: Places,
    marks: Places,
    notes: Places,
    references: Places,
}

impl Model for Kept {
    ghost use Rattle.load_model.specs.Met as model;

    ghost Value = { model.Kept };

    ghost view = { λ one. record { sections = one.sections; marks = one.marks; notes = one.notes; references = one.references } };
}

impl Kept {
    /// Whether the section of a place is kept.
    pub fn keeps_section(&self, place: u32) -> bool
        ensures { result ≡ is_at self.now.sections place }
    {
        self.sections.has(place)
    }

    /// Whether the mark of a place is kept.
    pub fn keeps_mark(&self, place: u32) -> bool
        ensures { result ≡ is_at self.now.marks place }
    {
        self.marks.has(place)
    }

    /// Whether the id of the note of a place is kept.
    pub fn keeps_note(&self, place: u32) -> bool
        ensures { result ≡ is_at self.now.notes place }
    {
        self.notes.has(place)
    }

    /// Whether the reference name of the sequence field of a place is kept.
    pub fn keeps_reference(&self, place: u32) -> bool
        ensures { result ≡ is_at self.now.references place }
    {
        self.references.has(place)
    }
}

/// What is kept of what is met: of each name the first; of marks those of new names that are whole or have a partner.
pub fn kept_of(alloc: Global, met: &[Met<'_>]) -> Result<Kept, AllocError>
    ensures { IfOk result (λ kept. (all : List model.Met) → map met_of met.now ≡ map outlined all → IsSame kept (model.kept_of all)) }
{
    let sections = first_places(alloc, Kind::Sections, met)?;
    let marks = mark_places(alloc, met)?;
    let notes = first_places(alloc, Kind::Notes, met)?;
    let references = first_places(alloc, Kind::References, met)?;
    Ok(Kept {
        sections,
        marks,
        notes,
        references,
    })
}
