//! What can be quoted: the pieces of the body, and those of all notes.
ghost use Rattle.std.specs.Prelude.{◌≡◌, [], ◌∷◌, ◌++◌, Bool, drop, take, map, chars, length, OnOk, OnErr, if◌then◌else◌};
ghost use Rattle.field_model.specs.Cut.{cut};
ghost use Rattle.field_model.specs.Quotes.{pieces_and};
ghost use Rattle.field_model.specs.declared.gathered.Piece.TheVariants.{Char};
ghost use Rattle.field_model.specs.Gathered.{same_text};
ghost use Rattle.field_walk.specs.Lists.{run_in};
ghost use Rattle.field_walk.specs.Steps.{without};

use field_model::Piece;
use std::alloc::{AllocError, Global};

/// How many characters of a variable's value are quoted.
const QUOTED: usize = 512;

/// The pieces of the body and those of all notes, one after another.
#[derive(Debug, Drop)]
pub(crate) struct Runs {
    pub(crate) body: Vec<Piece>,
    pub(crate) notes: Vec<Piece>,
}

impl Runs {
    // No piece. It takes no memory.
    pub(crate) fn new(alloc: Global) -> Runs
        ensures { (noted : Bool) → run_in result noted ≡ [] }
    {
        Runs {
            body: Vec::new(alloc),
            notes: Vec::new(alloc),
        }
    }

    // The pieces of the body, or of all notes.
    pub(crate) fn get(&self, in_note: bool) -> &[Piece]
        ensures { result.now ≡ run_in self.now in_note }
    {
        if in_note {
            self.notes.as_slice()
        } else {
            self.body.as_slice()
        }
    }

    // Adds a piece.
    pub(crate) fn push(&mut self, in_note: bool, piece: Piece) -> Result<(), AllocError>
        ensures ok { OnOk result ((noted : Bool) → run_in self.new noted ≡ pieces_and noted in_note (run_in self.old noted) (piece ∷ [])) }
        ensures err { OnErr result ((noted : Bool) → run_in self.new noted ≡ run_in self.old noted) }
    {
        if in_note {
            self.notes.push(piece)?;
        } else {
            self.body.push(piece)?;
        }
        Ok(())
    }
}

impl Runs {
    // Takes back all pieces of a text but the first ones.
    fn cut(&mut self, in_note: bool, len: usize)
        ensures { (noted : Bool) → run_in self.new noted ≡ (if same_text noted in_note then take len (run_in self.old noted) else run_in self.old noted) }
    {
        if in_note {
            self.notes.truncate(len);
        } else {
            self.body.truncate(len);
        }
    }

    // Takes back the last pieces of a text.
    pub(crate) fn pop(&mut self, in_note: bool, count: usize)
        ensures { (noted : Bool) → run_in self.new noted ≡ without noted in_note count (run_in self.old noted) }
    {
        let len = self.get(in_note).len();
        self.cut(in_note, len.saturating_sub(count));
    }

    // Adds the first 512 characters of a text.
    pub(crate) fn push_letters(&mut self, in_note: bool, text: &str) -> Result<(), AllocError>
        ensures ok { OnOk result ((noted : Bool) → run_in self.new noted ≡ pieces_and noted in_note (run_in self.old noted) (map Char (cut (chars text.now)))) }
        ensures err { OnErr result ((noted : Bool) → run_in self.new noted ≡ run_in self.old noted) }
    {
        let len = self.get(in_note).len();
        match self.add_letters(in_note, text) {
            Ok(()) => Ok(()),
            Err(fault) => {
                self.cut(in_note, len);
                Err(fault)
            }
        }
    }

    // Adds the first 512 characters of a text, or some of them.
    fn add_letters(&mut self, in_note: bool, text: &str) -> Result<(), AllocError>
        ensures ok { OnOk result ((noted : Bool) → run_in self.new noted ≡ pieces_and noted in_note (run_in self.old noted) (map Char (cut (chars text.now)))) }
        ensures err { OnErr result ((noted : Bool) → (if same_text noted in_note then take (length (run_in self.old in_note)) (run_in self.new noted) else run_in self.new noted) ≡ run_in self.old noted) }
    {
        for letter in text.chars().take(QUOTED) {
            self.push(in_note, Piece::Char(letter))?;
        }
        Ok(())
    }
}

// How many pieces the quoted characters of a text are.
pub(crate) fn quoted(text: &str) -> usize
    ensures { result ≡ length (cut (chars text.now)) }
{
    text.chars().take(QUOTED).count()
}

// The pieces between two places: none where these aren't in order, and at most what there is.
pub(crate) fn between(run: &[Piece], from: usize, to: usize) -> &[Piece]
    ensures { result.now ≡ drop from (take to run.now) }
{
    behind(front(run, to), from)
}

// The pieces in front of a place.
fn front(run: &[Piece], to: usize) -> &[Piece]
    ensures { result.now ≡ take to run.now }
{
    if to < run.len() { &run[..to] } else { run }
}

// The pieces from a place on.
pub(crate) fn behind(run: &[Piece], from: usize) -> &[Piece]
    ensures { result.now ≡ drop from run.now }
{
    if from < run.len() { &run[from..] } else { &[] }
}
