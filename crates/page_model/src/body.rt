//! The body of a page.

ghost use Rattle.std.specs.Prelude.{◌≡◌, IfOk};

use doc_model::{Label, List, Txt};
use std::alloc::AllocError;

/// A page without its header and footer.
#[derive(Debug, Drop)]
pub struct PageBody {
    /// Its number, which styles may set.
    pub number: u32,
    /// The place of its master among the masters, from 0.
    pub master: Option<usize>,
    /// Its columns.
    pub columns: u32,
    /// Its body rows, with blank rows as empty texts.
    pub body: List<Txt>,
    /// Its note rows.
    pub notes: List<Txt>,
    /// For each level from 1 to 10 the last heading of the body of at most that level whose first row stands on this page or
    /// an earlier one.
    pub heads: List<Option<HeadText>>,
}

/// The label and the text of a heading.
#[derive(Debug, Drop)]
pub struct HeadText {
    /// The label.
    pub label: Label,
    /// The text without the label.
    pub quote: Txt,
}

impl HeadText {
    pub fn copy(&self) -> Result<HeadText, AllocError>
        ensures { IfOk result (λ c. c ≡ self.now) }
    {
        let label = self.label.copy()?;
        let quote = self.quote.copy()?;
        Ok(HeadText { label, quote })
    }
}
