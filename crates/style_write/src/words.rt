//! Words of the values of properties, each by the first of its spellings.

ghost use Rattle.std.specs.Prelude.{◌≡◌, chars};
ghost use Rattle.written_model.specs.Values as named;

use doc_model::{Align, BreakAt};

/// Where the lines of a paragraph stand.
pub(crate) fn align_text(align: Align) -> &'static str
    ensures { chars result.now ≡ named.align_text align }
{
    match align {
        Align::Start => "start",
        Align::Center => "center",
        Align::End => "end",
    }
}

/// What is to end before or after a paragraph.
pub(crate) fn break_text(at: BreakAt) -> &'static str
    ensures { chars result.now ≡ named.break_text at }
{
    match at {
        BreakAt::Auto => "auto",
        BreakAt::Column => "column",
        BreakAt::Page => "page",
    }
}

/// Whether a paragraph is kept together, or with the next one.
pub(crate) fn keep_text(keep: bool) -> &'static str
    ensures { chars result.now ≡ named.keep_text keep }
{
    if keep { "always" } else { "auto" }
}

/// Whether text is shown.
pub(crate) fn display_text(shown: bool) -> &'static str
    ensures { chars result.now ≡ named.display_text shown }
{
    if shown { "true" } else { "none" }
}
