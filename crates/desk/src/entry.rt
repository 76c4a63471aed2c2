//! One document of the past.

use doc_model::{Document, List};
use std::marker::Model;

/// A document of the past, with what the group beside it touched.
#[derive(Debug, Drop)]
pub(crate) struct Entry {
    /// The document.
    pub(crate) document: Document,
    /// The numbers of the paragraphs that the group names.
    pub(crate) touched: List<u32>,
    /// Whether the group changes styles.
    pub(crate) restyling: bool,
}

impl Model for Entry {
    ghost use Rattle.std.specs.Coded.{codes};
    ghost use Rattle.doc_model.specs.contracts.document.Document as contract;
    ghost use Rattle.edit_model.specs.Past as past;

    ghost Value = { past.Entry };

    ghost coded = { Prim.hlevel (codes, contract.the_row.coded) };

    ghost view = { λ e. record { document = e.document; touched = e.touched; restyling = e.restyling } };
}
