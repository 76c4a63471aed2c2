//! Quotes.
ghost use Rattle.std.specs.Prelude.{◌≡◌, List, OnOk, option_copied, ◌++◌};
ghost use Rattle.field_model.specs.Gathered.{Event};
ghost use Rattle.field_walk.specs.Holds.{HoldsEvents};
ghost use Rattle.field_model.specs.Cut.{cut};
ghost use Rattle.std.specs.Prelude.{IfOk, chars, string_bytes};
ghost use Rattle.field_walk.specs.Gaps.{is_gap};
ghost use Rattle.field_model.specs.Shown.{piece_text, quote, up_to_gap, quote_from, quote_between, par_quote};

use crate::runs::{behind, between};
use crate::walk::Walk;
use doc_model::Txt;
use field_model::{ParPlace, Piece};
use number_text::CutText;
use std::alloc::AllocError;

impl Walk {
    // Adds what a piece shows.
    pub(crate) fn push_piece(&self, out: &mut CutText, piece: &Piece) -> Result<(), AllocError>
        ensures { (all : List Event) → HoldsEvents self.now all → OnOk result (out.new ≡ cut (out.old ++ piece_text all piece.now)) }
    {
        match piece {
            Piece::Gap => out.push(' '),
            Piece::Char(letter) => out.push(*letter),
            Piece::Number(name, format, here) => {
                self.push_counted(out, name, *format, *here)?;
                Ok(())
            }
            Piece::Variable(name, here) => {
                self.push_value(out, name, *here)?;
                Ok(())
            }
        }
    }

    // Adds what pieces show, one after another, as long as there is room.
    pub(crate) fn push_pieces(&self, out: &mut CutText, pieces: &[Piece]) -> Result<(), AllocError>
        ensures { (all : List Event) → HoldsEvents self.now all → OnOk result (out.new ≡ cut (out.old ++ quote all pieces.now)) }
    {
        if out.is_full() {
            return Ok(());
        }
        for piece in pieces {
            self.push_piece(out, piece)?;
            if out.is_full() {
                return Ok(());
            }
        }
        Ok(())
    }

    // Adds what pieces show up to where the next paragraph begins, as long as there is room.
    fn push_up_to_gap(&self, out: &mut CutText, pieces: &[Piece]) -> Result<(), AllocError>
        ensures { (all : List Event) → HoldsEvents self.now all → OnOk result (out.new ≡ cut (out.old ++ quote all (up_to_gap pieces.now))) }
    {
        if out.is_full() {
            return Ok(());
        }
        for piece in pieces {
            if is_gap(piece) {
                return Ok(());
            }
            self.push_piece(out, piece)?;
            if out.is_full() {
                return Ok(());
            }
        }
        Ok(())
    }

    // Adds the quote from a place on to the end of its paragraph.
    pub(crate) fn push_from(
        &self,
        out: &mut CutText,
        in_note: bool,
        from: usize,
    ) -> Result<(), AllocError>
        ensures { (all : List Event) → HoldsEvents self.now all → OnOk result (out.new ≡ cut (out.old ++ quote_from all in_note from)) }
    {
        let run = self.runs.get(in_note);
        self.push_up_to_gap(out, behind(run, from))
    }

    // Adds the quote between two places of a text.
    pub(crate) fn push_between(
        &self,
        out: &mut CutText,
        in_note: bool,
        from: usize,
        to: usize,
    ) -> Result<(), AllocError>
        ensures { (all : List Event) → HoldsEvents self.now all → OnOk result (out.new ≡ cut (out.old ++ quote_between all in_note from to)) }
    {
        self.push_pieces(out, between(self.runs.get(in_note), from, to))
    }

    // Adds the quote of a paragraph.
    pub(crate) fn push_par(&self, out: &mut CutText, par: &ParPlace) -> Result<(), AllocError>
        ensures { (all : List Event) → HoldsEvents self.now all → OnOk result (out.new ≡ cut (out.old ++ par_quote all par.now)) }
    {
        self.push_from(out, par.in_note, par.from)
    }

    // The whole quote of a paragraph.
    pub(crate) fn par_text(&self, par: &ParPlace) -> Result<Txt, AllocError>
        ensures { (all : List Event) → HoldsEvents self.now all → IfOk result (λ text. text ≡ par_quote all par.now) }
    {
        let text = self.text_up_to_gap(behind(self.runs.get(par.in_note), par.from))?;
        Ok(Txt::from_list(text))
    }

    // What pieces show up to where the next paragraph begins.
    fn text_up_to_gap(&self, pieces: &[Piece]) -> Result<String, AllocError>
        ensures { (all : List Event) → HoldsEvents self.now all → IfOk result (λ text. chars (string_bytes text) ≡ quote all (up_to_gap pieces.now)) }
    {
        let mut text = String::new(self.alloc);
        for piece in pieces {
            if is_gap(piece) {
                return Ok(text);
            }
            self.push_whole(&mut text, piece)?;
        }
        Ok(text)
    }

    // Adds what a piece shows.
    fn push_whole(&self, text: &mut String, piece: &Piece) -> Result<(), AllocError>
        ensures { (all : List Event) → HoldsEvents self.now all → OnOk result (chars (string_bytes text.new) ≡ chars (string_bytes text.old) ++ piece_text all piece.now) }
    {
        let mut shown = CutText::new(self.alloc);
        self.push_piece(&mut shown, piece)?;
        let shown = shown.into_txt();
        push_chars(text, shown.get())?;
        Ok(())
    }
}

// Whether a paragraph begins.
fn is_gap(piece: &Piece) -> bool
    ensures { result ≡ is_gap piece.now }
{
    match piece {
        Piece::Gap => true,
        _ => false,
    }
}

// Adds a text.
fn push_chars(text: &mut String, more: &str) -> Result<(), AllocError>
    ensures { OnOk result (chars (string_bytes text.new) ≡ chars (string_bytes text.old) ++ chars more.now) }
{
    text.push_str(more)?;
    Ok(())
}
