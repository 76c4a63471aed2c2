//! The marks that are kept.
ghost use Rattle.std.specs.Prelude.{◌≡◌, ◌++◌, ◌∷◌, ◌&&◌, not, [], map, List, OnOk, IfOk};
ghost use Rattle.std.specs.Option.{option_map};
ghost use Rattle.load_model.specs.Met as model;
ghost use Rattle.met_read.specs.Read.{met_of, mark_of};
ghost use Rattle.kept_names.specs.Places.{AreSame};
ghost use Rattle.kept_names.specs.Bookmarks.{is_in, is_kept, is_met, is_whole, next, of_kind, with_kind, after_mark, completes, mark_in, bookmark_in, Follows, complete_places};

use crate::firsts::as_text;
use crate::places::Places;
use indexmap::IndexMap;
use met_read::{MarkKind, Met, MetMark};
use std::alloc::{AllocError, Global};

/// What came of a kind of mark of a bookmark.
#[derive(Debug, Clone, Copy)]
pub(crate) enum Came {
    /// Nothing yet.
    Never,
    /// A mark that isn't kept.
    Dropped,
    /// A mark that is kept, in the text of this place.
    Kept(u32),
}

/// What came of a bookmark.
#[derive(Debug, Clone, Copy)]
pub(crate) struct Bookmark {
    whole: Came,
    start: Came,
    end: Came,
}

/// The places of the marks that are kept.
pub(crate) fn mark_places(alloc: Global, met: &[Met<'_>]) -> Result<Places, AllocError>
    ensures { IfOk result (λ places. AreSame places (map (λ mark. mark.place) (model.kept_marks (map met_of met.now)))) }
{
    let mut bookmarks: IndexMap<&str, Bookmark> = IndexMap::new(alloc);
    let mut kept = Vec::new(alloc);
    for one in met {
        match mark_in(one) {
            Some(mark) => add_mark(&mut bookmarks, &mut kept, mark)?,
            None => {}
        }
    }
    complete_places(alloc, &bookmarks, kept.as_slice())
}

// The mark that is met, if it is one.
fn mark_in<'a>(one: &Met<'a>) -> Option<MetMark<'a>>
    ensures { option_map mark_of result ≡ mark_in (met_of one.now) }
{
    match one {
        Met::Mark(mark) => Some(*mark),
        _ => None,
    }
}

// Adds a mark, and keeps it where its name is new.
fn add_mark<'a>(
    bookmarks: &mut IndexMap<&'a str, Bookmark>,
    kept: &mut Vec<MetMark<'a>>,
    mark: MetMark<'a>,
) -> Result<(), AllocError>
    ensures { OnOk result ((before : List model.MetMark) → Follows bookmarks.old.entries (map mark_of kept.old.items) before → Follows bookmarks.new.entries (map mark_of kept.new.items) (before ++ mark_of mark.entry ∷ [])) }
{
    let name = as_text(mark.name);
    let bookmark = bookmark_of(bookmarks, name);
    bookmarks.insert(name, bookmark.after(mark.kind, mark.text))?;
    if bookmark.takes(mark.kind) {
        kept.push(mark)?;
    }
    Ok(())
}

// What came of the bookmark of a name.
fn bookmark_of(bookmarks: &IndexMap<&str, Bookmark>, name: &str) -> Bookmark
    ensures { result ≡ bookmark_in bookmarks.now.entries name.now }
{
    match bookmarks.get(name) {
        Some(bookmark) => *bookmark,
        None => Bookmark {
            whole: Came::Never,
            start: Came::Never,
            end: Came::Never,
        },
    }
}

// The places of those marks that are whole or have a partner.
fn complete_places(
    alloc: Global,
    bookmarks: &IndexMap<&str, Bookmark>,
    kept: &[MetMark<'_>],
) -> Result<Places, AllocError>
    ensures { IfOk result (λ places. (marks : List model.MetMark) → Follows bookmarks.now.entries (map mark_of kept.now) marks → AreSame places (complete_places marks)) }
{
    let mut places = Places::new(alloc);
    for mark in kept {
        let bookmark = bookmark_of(bookmarks, as_text(mark.name));
        if bookmark.completes(mark.kind, mark.text) {
            places.add(mark.place)?;
        }
    }
    Ok(places)
}

impl Came {
    // Whether nothing came yet.
    fn is_never(self) -> bool
        ensures { result ≡ not (is_met self) }
    {
        matches!(self, Came::Never)
    }

    // What came behind one more mark in a text, where a whole bookmark is kept already or isn't.
    fn next(self, is_whole: bool, text: u32) -> Came
        ensures { result ≡ next is_whole text self }
    {
        match self {
            Came::Never => {
                if is_whole {
                    Came::Dropped
                } else {
                    Came::Kept(text)
                }
            }
            _ => self,
        }
    }

    // Whether a mark is kept.
    fn is_kept(self) -> bool
        ensures { result ≡ is_kept self }
    {
        matches!(self, Came::Kept(_))
    }

    // Whether a mark is kept in a text.
    fn is_in(self, text: u32) -> bool
        ensures { result ≡ is_in text self }
    {
        match self {
            Came::Kept(other) => other == text,
            _ => false,
        }
    }
}

impl Bookmark {
    // What came of a kind of mark.
    fn of_kind(self, kind: MarkKind) -> Came
        ensures { result ≡ of_kind kind self }
    {
        match kind {
            MarkKind::Whole => self.whole,
            MarkKind::Start => self.start,
            MarkKind::End => self.end,
        }
    }

    // Whether a whole bookmark is kept: a point, or both ends in one text.
    fn is_whole(self) -> bool
        ensures { result ≡ is_whole self }
    {
        if self.whole.is_kept() {
            return true;
        }
        match self.end {
            Came::Kept(text) => self.start.is_in(text),
            _ => false,
        }
    }

    // Whether a mark of a kind is kept that comes next.
    fn takes(self, kind: MarkKind) -> bool
        ensures { result ≡ (not (is_met (of_kind kind self)) && not (is_whole self)) }
    {
        self.of_kind(kind).is_never() && !self.is_whole()
    }

    // What came of the bookmark behind a mark of a kind in a text.
    fn after(self, kind: MarkKind, text: u32) -> Bookmark
        ensures { result ≡ after_mark kind text self }
    {
        let came = self.of_kind(kind).next(self.is_whole(), text);
        self.with(kind, came)
    }

    // The bookmark of which this came of a kind of mark.
    fn with(self, kind: MarkKind, came: Came) -> Bookmark
        ensures { result ≡ with_kind kind came self }
    {
        match kind {
            MarkKind::Whole => Bookmark {
                whole: came,
                ..self
            },
            MarkKind::Start => Bookmark {
                start: came,
                ..self
            },
            MarkKind::End => Bookmark { end: came, ..self },
        }
    }

    // Whether a kept mark of a kind in a text is whole, or its partner is kept.
    fn completes(self, kind: MarkKind, text: u32) -> bool
        ensures { result ≡ completes kind text self }
    {
        match kind {
            MarkKind::Whole => true,
            MarkKind::Start => self.end.is_in(text),
            MarkKind::End => self.start.is_in(text),
        }
    }
}
