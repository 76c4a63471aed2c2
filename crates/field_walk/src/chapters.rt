//! The last heading of at most each level.
ghost use Rattle.std.specs.Prelude.{◌≡◌, List, OnOk, option_copied, ◌++◌, map, nat_le, ◌&&◌, if◌then◌else◌};
ghost use Rattle.field_model.specs.Gathered.{Event};
ghost use Rattle.field_model.specs.Shown.{chapter_text, heading, joined, par_quote, nearest};
ghost use Rattle.field_walk.specs.Holds.{HoldsEvents};
ghost use Rattle.field_walk.specs.Chapters.{chapters_behind};
ghost use Rattle.field_model.specs.Cut.{cut};

use crate::texts::{push_nothing, push_text};
use crate::walk::Walk;
use doc_model::{ChapterShow, Txt};
use field_model::ParPlace;
use number_text::CutText;
use sqlite_items::at;
use std::alloc::AllocError;

// The last headings behind a paragraph of a level, where 0 is none.
pub(crate) fn chapters_with(
    before: [Option<usize>; 10],
    level: u8,
    par: usize,
) -> [Option<usize>; 10]
    ensures { result ≡ chapters_behind level par before }
{
    let [one, two, three, four, five, six, seven, eight, nine, ten] = before;
    [
        chapter_behind(1, level, par, one),
        chapter_behind(2, level, par, two),
        chapter_behind(3, level, par, three),
        chapter_behind(4, level, par, four),
        chapter_behind(5, level, par, five),
        chapter_behind(6, level, par, six),
        chapter_behind(7, level, par, seven),
        chapter_behind(8, level, par, eight),
        chapter_behind(9, level, par, nine),
        chapter_behind(10, level, par, ten),
    ]
}

// The last heading of at most a level behind a paragraph of a level, by the one in front of it.
fn chapter_behind(most: u8, level: u8, par: usize, before: Option<usize>) -> Option<usize>
    ensures { result ≡ (if nat_le 1 level && nat_le level most then Some par else before) }
{
    if level < 1 {
        return before;
    }
    if level > most {
        return before;
    }
    Some(par)
}

impl Walk {
    // The last heading of at most a level at or before a paragraph.
    pub(crate) fn heading(&self, par: &ParPlace, level: u8) -> Option<&ParPlace>
        ensures { (all : List Event) → HoldsEvents self.now all → option_copied result ≡ heading all par.now level }
    {
        match nearest(par, level) {
            Some(place) => at(self.pars.as_slice(), place),
            None => None,
        }
    }

    // Adds what a chapter field shows of its heading.
    pub(crate) fn push_chapter(
        &self,
        out: &mut CutText,
        shows: ChapterShow,
        heading: Option<&ParPlace>,
    ) -> Result<(), AllocError>
        ensures { (all : List Event) → HoldsEvents self.now all → OnOk result (out.new ≡ cut (out.old ++ chapter_text all shows (option_copied heading.entry))) }
    {
        match heading {
            Some(par) => match shows {
                ChapterShow::Name => self.push_par(out, par),
                ChapterShow::Number => push_text(out, &par.label.full),
                ChapterShow::PlainNumber => push_text(out, &par.label.plain),
                ChapterShow::NumberAndName => self.push_joined(out, &par.label.full, par),
                ChapterShow::PlainNumberAndName => self.push_joined(out, &par.label.plain, par),
            },
            None => push_nothing(out),
        }
    }

    // Adds a number and the quote of a paragraph, joined by a space, or the quote alone where the number is empty.
    fn push_joined(&self, out: &mut CutText, number: &Txt, par: &ParPlace) -> Result<(), AllocError>
        ensures { (all : List Event) → HoldsEvents self.now all → OnOk result (out.new ≡ cut (out.old ++ joined number.now (par_quote all par.now))) }
    {
        let none = Txt::none(self.alloc);
        if number.is_same(&none) {
            self.push_par(out, par)?;
            return Ok(());
        }
        push_text(out, number)?;
        out.push(' ')?;
        self.push_par(out, par)?;
        Ok(())
    }
}

// The last heading of at most a level from 1 to 10 at or before a paragraph.
fn nearest(par: &ParPlace, level: u8) -> Option<usize>
    ensures { result ≡ nearest par.now.chapters level }
{
    if level > 10 {
        return None;
    }
    par.chapters[level.saturating_sub(1) as usize]
}
