//! The past of a document: what undo goes back to, and redo forth.

ghost use Rattle.std.specs.Prelude.{◌≡◌, ◌≢◌, ◌↔◌, [], IsTrue, OnOk, OnErr, slice_get};
ghost use Rattle.edit_model.specs.Past.{no_past, after_group, after_undo, after_redo};

use crate::entry::Entry;
use doc_model::{Document, List};
use std::alloc::{AllocError, Global};
use std::collections::VecDeque;
use std::marker::Model;
use std::mem;

/// How many earlier documents are kept.
const MOST_EARLIER: usize = 256;

/// The present document, the earlier and the undone ones. In both lists the next one to be taken comes first.
///
/// A change takes the room that it needs first, so that want of memory leaves all as it was.
#[derive(Debug, Drop)]
pub(crate) struct Past {
    present: Document,
    earlier: VecDeque<Entry>,
    undone: VecDeque<Entry>,
}

impl Model for Past {
    ghost use Rattle.std.specs.Coded.{codes};
    ghost use Rattle.doc_model.specs.contracts.document.Document as contract;
    ghost use Rattle.edit_model.specs.Past as past;

    ghost Value = { past.Past };

    ghost coded = { Prim.hlevel (codes, contract.the_row.coded) };

    ghost view = { λ p. record { present = p.present; earlier = p.earlier.items; undone = p.undone.items } };
}

impl Past {
    /// The past of a document that nothing was done to. It takes no memory.
    pub(crate) fn of_document(alloc: Global, document: Document) -> Past
        ensures { result ≡ no_past document }
    {
        Past {
            present: document,
            earlier: VecDeque::new(alloc),
            undone: VecDeque::new(alloc),
        }
    }

    /// The present document.
    pub(crate) fn present(&self) -> &Document
        ensures { result.now ≡ self.now.present }
    {
        &self.present
    }

    /// Whether there is an earlier document.
    pub(crate) fn has_earlier(&self) -> bool
        ensures { IsTrue result ↔ (self.now.earlier ≢ []) }
    {
        !self.earlier.is_empty()
    }

    /// Whether there is an undone document.
    pub(crate) fn has_undone(&self) -> bool
        ensures { IsTrue result ↔ (self.now.undone ≢ []) }
    {
        !self.undone.is_empty()
    }

    /// The earlier document that an undo would take.
    pub(crate) fn next_earlier(&self) -> &Entry
        requires { self.now.earlier ≢ [] }
        ensures { slice_get self.now.earlier 0 ≡ Some result.now }
    {
        &self.earlier[0]
    }

    /// The undone document that a redo would take.
    pub(crate) fn next_undone(&self) -> &Entry
        requires { self.now.undone ≢ [] }
        ensures { slice_get self.now.undone 0 ≡ Some result.now }
    {
        &self.undone[0]
    }

    /// Makes this document the present one. The one before becomes the next earlier one.
    pub(crate) fn put(
        &mut self,
        document: Document,
        touched: List<u32>,
        restyling: bool,
    ) -> Result<(), AllocError>
        ensures ok { OnOk result (self.new ≡ after_group self.old document touched restyling) }
        ensures err { OnErr result (self.new ≡ self.old) }
    {
        self.earlier.reserve(1)?;
        let document = mem::replace(&mut self.present, document);
        self.earlier.push_front_reserved(Entry {
            document,
            touched,
            restyling,
        });
        self.earlier.truncate(MOST_EARLIER);
        self.undone.clear();
        Ok(())
    }

    /// Makes the next earlier document the present one. The one before becomes the next undone one.
    pub(crate) fn undo(&mut self) -> Result<(), AllocError>
        requires { self.old.earlier ≢ [] }
        ensures ok { OnOk result (after_undo self.old ≡ Some self.new) }
        ensures err { OnErr result (self.new ≡ self.old) }
    {
        self.undone.reserve(1)?;
        if let Some(mut entry) = self.earlier.pop_front() {
            mem::swap(&mut self.present, &mut entry.document);
            self.undone.push_front_reserved(entry);
        }
        Ok(())
    }

    /// Makes the next undone document the present one. The one before becomes the next earlier one.
    pub(crate) fn redo(&mut self) -> Result<(), AllocError>
        requires { self.old.undone ≢ [] }
        ensures ok { OnOk result (after_redo self.old ≡ Some self.new) }
        ensures err { OnErr result (self.new ≡ self.old) }
    {
        self.earlier.reserve(1)?;
        if let Some(mut entry) = self.undone.pop_front() {
            mem::swap(&mut self.present, &mut entry.document);
            self.earlier.push_front_reserved(entry);
        }
        Ok(())
    }
}
