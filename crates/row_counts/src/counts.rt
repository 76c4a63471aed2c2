//! Counts of rows.
ghost use Rattle.std.specs.Prelude.{◌≡◌, ◌+◌, ◌-◌, ◌≤◌, ◌∷◌, [], ℕ, List, IfOk, if◌then◌else◌};
ghost use Rattle.std.specs.List.{between, splice};
ghost use Rattle.doc_model.specs.Limits.{counts_as_section};
ghost use Rattle.node_array.specs.declared.row.Row.{Row};
ghost use Rattle.node_array.specs.Rows.{rows_of};

use doc_model::Kind;
use node_array::{NodeArray, Row};
use std::alloc::AllocError;

/// How many paragraphs, items and sections there are in rows.
#[derive(Debug, Clone, Copy, PartialEq, Eq)]
pub struct Counts {
    /// The paragraphs, those of notes included.
    pub paragraphs: usize,
    /// The items of all paragraphs.
    pub items: usize,
    /// The sections. Rows and cells of tables don't count.
    pub sections: usize,
}

impl Counts {
    ghost use Rattle.row_counts.specs.Counts.{counts_of};

    /// Those of the rows of a body.
    pub fn of_array(rows: &NodeArray) -> Result<Counts, AllocError>
        ensures { IfOk result (λ counts. counts ≡ counts_of (rows_of rows.now)) }
    {
        let mut counts = Counts::none();
        for at in 0..rows.len() {
            counts = counts.plus(Counts::of_row(rows.row(at)))?;
        }
        Ok(counts)
    }

    /// Those of some rows.
    pub fn of_rows(rows: &[Row]) -> Result<Counts, AllocError>
        ensures { IfOk result (λ counts. counts ≡ counts_of rows.now) }
    {
        let mut counts = Counts::none();
        for row in rows {
            counts = counts.plus(Counts::of_row(row))?;
        }
        Ok(counts)
    }

    /// Those of rows of which a range was replaced, where these are the counts before it.
    pub fn replaced(self, removed: &[Row], put: &[Row]) -> Result<Counts, AllocError>
        ensures { (rows : List Row) (from to : ℕ) → from ≤ to → self ≡ counts_of rows → removed.now ≡ between from to rows → IfOk result (λ counts. counts ≡ counts_of (splice rows from to put.now)) }
    {
        let removed = Counts::of_rows(removed)?;
        let put = Counts::of_rows(put)?;
        self.minus(removed).plus(put)
    }

    // Those of no rows.
    fn none() -> Counts
        ensures { result ≡ counts_of [] }
    {
        Counts {
            paragraphs: 0,
            items: 0,
            sections: 0,
        }
    }

    // Those of one row.
    fn of_row(row: &Row) -> Counts
        ensures { result ≡ counts_of (row.now ∷ []) }
    {
        match row {
            Row::Start(head) => Counts {
                sections: sections_of(head.kind),
                ..Counts::none()
            },
            Row::End => Counts::none(),
            Row::Par(_head, items) => Counts {
                paragraphs: 1,
                items: items.len(),
                ..Counts::none()
            },
            Row::NoteText => Counts::none(),
        }
    }

    // Both together. So many that they pass the largest number can't be held.
    fn plus(self, other: Counts) -> Result<Counts, AllocError>
        ensures { IfOk result (λ sum. sum ≡ record { paragraphs = self.paragraphs + other.paragraphs; items = self.items + other.items; sections = self.sections + other.sections }) }
    {
        Ok(Counts {
            paragraphs: sum(self.paragraphs, other.paragraphs)?,
            items: sum(self.items, other.items)?,
            sections: sum(self.sections, other.sections)?,
        })
    }

    // What is left without the others.
    fn minus(self, other: Counts) -> Counts
        ensures { result ≡ record { paragraphs = self.paragraphs - other.paragraphs; items = self.items - other.items; sections = self.sections - other.sections } }
    {
        Counts {
            paragraphs: self.paragraphs.saturating_sub(other.paragraphs),
            items: self.items.saturating_sub(other.items),
            sections: self.sections.saturating_sub(other.sections),
        }
    }
}

// How many sections one of this kind counts as.
fn sections_of(kind: Kind) -> usize
    ensures { result ≡ (if counts_as_section kind then 1 else 0) }
{
    match kind {
        Kind::Row => 0,
        Kind::Cell(_) => 0,
        _ => 1,
    }
}

// A sum, or want of memory where it passes the largest number.
fn sum(one: usize, other: usize) -> Result<usize, AllocError>
    ensures { IfOk result (λ sum. sum ≡ one + other) }
{
    match one.checked_add(other) {
        Some(sum) => Ok(sum),
        None => Err(AllocError),
    }
}
