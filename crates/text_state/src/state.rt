//! The state of a document that is edited.

ghost use Rattle.std.specs.Prelude.{◌≡◌, IfOk, fold, max};
ghost use Rattle.std.specs.Arc.{arc_value};
ghost use Rattle.doc_model.specs.Valid.{IsValid};
ghost use Rattle.name_index.specs.Names.{Agree};
ghost use Rattle.name_index.specs.Scan.{scanned, names_of};
ghost use Rattle.node_array.specs.Rows.{rows_of};
ghost use Rattle.paragraph_rows.specs.Standing.{number_in};
ghost use Rattle.row_counts.specs.Counts.{counts_of};
ghost use Rattle.text_state.specs.RestOf.{rest_of};
ghost use Rattle.text_state.specs.State.{document_of, greatest_number, unedited};

use crate::body_rows::array_of;
use crate::document::document_of;
use crate::names::names_of_document;
use crate::rest::Rest;
use crate::styles::styles_of;
use doc_model::{Document, Name, ParId};
use name_index::{NameIndex, NameKind};
use node_array::{NodeArray, Row};
use row_counts::Counts;
use std::alloc::{AllocError, Global};
use std::marker::Model;
use std::sync::Arc;
use style_tree::StyleTree;

/// A document that is edited, with the next paragraph number: the body as rows, the styles as a tree, the other parts
/// shared, an index of the names, which always agrees with the document, and the counts of the rows.
#[derive(Drop)]
pub struct TextState {
    rows: NodeArray,
    styles: StyleTree,
    names: Arc<NameIndex>,
    counts: Counts,
    rest: Rest,
    next: u64,
}

impl Model for TextState {
    ghost use Rattle.std.specs.Prelude.{◌≡◌};
    ghost use Rattle.std.specs.Arc.{arc_value};
    ghost use Rattle.std.specs.Coded.{codes};
    ghost use Rattle.doc_model.specs.contracts.document.Document as contract;
    ghost use Rattle.edit_rules.specs.Edited.{Edited};
    ghost use Rattle.name_index.specs.Names.{Agree};
    ghost use Rattle.name_index.specs.Scan.{names_of};
    ghost use Rattle.node_array.specs.Rows.{rows_of};
    ghost use Rattle.row_counts.specs.Counts.{counts_of};
    ghost use Rattle.text_state.specs.State.{document_of};

    ghost Value = { Edited };

    ghost coded = { Prim.hlevel (codes, contract.the_row.coded) };

    ghost view = { λ state. record { document = document_of state.rest state.styles state.rows; next = state.next } };

    ghost invariant = { λ state. Agree (arc_value state.names) (names_of (document_of state.rest state.styles state.rows)) × (state.counts ≡ counts_of (rows_of state.rows)) };
}

impl TextState {
    /// The state of a document that was not edited yet. The next paragraph number is one above the greatest.
    pub fn from_document(alloc: Global, doc: &Document) -> Result<TextState, AllocError>
        requires valid { IsValid doc.now }
        ensures { IfOk result (λ state. state ≡ unedited doc.now) }
    {
        let rows = array_of(alloc, doc.body.get())?;
        let styles = styles_of(alloc, &doc.defaults, doc.styles.get())?;
        let names = Arc::new(alloc, names_of_document(alloc, doc)?)?;
        let counts = Counts::of_array(&rows)?;
        let rest = Rest::of(alloc, doc)?;
        let next = u64::from(greatest_number(&rows)) + 1;
        Ok(TextState {
            rows,
            styles,
            names,
            counts,
            rest,
            next,
        })
    }

    /// The body as rows. It takes no memory.
    pub fn rows(&self) -> &NodeArray
        ensures { result.now ≡ self.now.document.body }
    {
        &self.rows
    }

    /// The default style and the styles. It takes no memory.
    pub fn styles(&self) -> &StyleTree
        ensures { result.now ≡ record { defaults = self.now.document.defaults; styles = self.now.document.styles } }
    {
        &self.styles
    }

    /// The other parts. It takes no memory.
    pub fn rest(&self) -> &Rest
        ensures { result.now ≡ rest_of self.now.document }
    {
        &self.rest
    }

    /// The next paragraph number. It takes no memory.
    pub fn next(&self) -> u64
        ensures { result ≡ self.now.next }
    {
        self.next
    }

    /// The paragraph that a name leads to: that of the first thing of this kind and name in reading order, if there is
    /// one. It takes no memory.
    pub fn find(&self, kind: NameKind, name: &Name) -> Option<ParId>
        ensures { result ≡ scanned self.now.document kind name.now }
    {
        self.names.find(kind, name)
    }

    /// The index of the names. It takes no memory.
    pub fn names(&self) -> &Arc<NameIndex>
        ensures { Agree (arc_value result.now) (names_of self.now.document) }
    {
        &self.names
    }

    /// How many paragraphs, items and sections there are. It takes no memory.
    pub fn counts(&self) -> Counts
        ensures { result ≡ counts_of (rows_of self.now.document.body) }
    {
        self.counts
    }

    /// The state with other rows, with an index of the names of the document that they make, with the counts of the rows,
    /// and with another next number.
    pub fn with_body(
        &self,
        rows: NodeArray,
        names: Arc<NameIndex>,
        counts: Counts,
        next: u64,
    ) -> Result<TextState, AllocError>
        requires counts { counts ≡ counts_of (rows_of rows) }
        requires names { Agree (arc_value names) (names_of (record self.now.document { body = rows })) }
        ensures { IfOk result (λ state. state ≡ record { document = record self.now.document { body = rows }; next = next }) }
    {
        let styles = self.styles.share()?;
        let rest = self.rest.share()?;
        Ok(TextState {
            rows,
            styles,
            names,
            counts,
            rest,
            next,
        })
    }

    /// The state with another default style and other styles.
    pub fn with_styles(&self, styles: StyleTree) -> Result<TextState, AllocError>
        ensures { IfOk result (λ state. state ≡ record self.now { document = record self.now.document { defaults = styles.defaults; styles = styles.styles } }) }
    {
        let mut state = self.share()?;
        state.styles = styles;
        Ok(state)
    }

    /// The state with other parts that are neither its body nor its styles.
    pub fn with_rest(&self, rest: Rest) -> Result<TextState, AllocError>
        ensures { IfOk result (λ state. state ≡ record self.now { document = document_of rest (record { defaults = self.now.document.defaults; styles = self.now.document.styles }) self.now.document.body }) }
    {
        let mut state = self.share()?;
        state.rest = rest;
        Ok(state)
    }

    /// The document, copied. It takes memory and time for the whole of it.
    pub fn document(&self) -> Result<Document, AllocError>
        ensures { IfOk result (λ doc. doc ≡ self.now.document) }
    {
        document_of(&self.rest, &self.styles, &self.rows)
    }

    /// An equal state, which has all in common with this one. It takes no memory, and is refused only where a count of
    /// owners is at its end.
    pub fn share(&self) -> Result<TextState, AllocError>
        ensures { IfOk result (λ state. state ≡ self.now) }
    {
        let rows = self.rows.share()?;
        let styles = self.styles.share()?;
        let names = Arc::try_clone(&self.names)?;
        let rest = self.rest.share()?;
        Ok(TextState {
            rows,
            styles,
            names,
            counts: self.counts,
            rest,
            next: self.next,
        })
    }
}

// The greatest number of a paragraph, 0 where there is none.
fn greatest_number(rows: &NodeArray) -> u32
    ensures { result ≡ greatest_number rows.now }
{
    let mut greatest = 0;
    for at in 0..rows.len() {
        greatest = greater(greatest, rows.row(at));
    }
    greatest
}

// The greater of a number and that of a row, if it is a paragraph's.
fn greater(number: u32, row: &Row) -> u32
    ensures { result ≡ fold max number (number_in row.now) }
{
    match row {
        Row::Par(head, _) => number.max(head.id.0),
        _ => number,
    }
}
