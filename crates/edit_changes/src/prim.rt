//! A change of the state of a document.

ghost use Rattle.std.specs.Prelude.{◌≡◌, IfOk};
ghost use Rattle.edit_changes.specs.Changes.{turned, changed};

use doc_model::{List, ParId};
use std::alloc::AllocError;
use std::marker::Model;
use std::sync::Arc;
use text_state::TextState;

/// A change of a document, with the state before it and the state after it, which have in common what the change leaves. So a
/// change is taken back by the two exchanged, and it costs what the states don't share.
#[derive(Drop)]
pub struct Prim {
    before: TextState,
    after: TextState,
    touched: List<ParId>,
    restyles: bool,
}

impl Model for Prim {
    ghost use Rattle.std.specs.Coded.{codes};
    ghost use Rattle.doc_model.specs.contracts.document.Document as contract;
    ghost use Rattle.edit_changes.specs.Changes.{Change};

    ghost Value = { Change };

    ghost coded = { Prim.hlevel (codes, contract.the_row.coded) };

    ghost view = { λ prim. record { before = prim.before; after = prim.after; touched = prim.touched; restyles = prim.restyles } };
}

impl Prim {
    /// The change from one state to another, with the paragraphs that it touches and whether it changes styles.
    pub fn new(before: TextState, after: TextState, touched: List<ParId>, restyles: bool) -> Prim
        ensures { result ≡ record { before = before; after = after; touched = touched; restyles = restyles } }
    {
        Prim {
            before,
            after,
            touched,
            restyles,
        }
    }

    /// The paragraphs that it touches. It takes no memory.
    pub fn touched(&self) -> &List<ParId>
        ensures { result.now ≡ self.now.touched }
    {
        &self.touched
    }

    /// Whether it changes styles. It takes no memory.
    pub fn restyles(&self) -> bool
        ensures { result ≡ self.now.restyles }
    {
        self.restyles
    }

    /// The change that takes it back.
    pub fn turned(&self) -> Result<Prim, AllocError>
        ensures { IfOk result (λ back. back ≡ turned self.now) }
    {
        let before = self.after.share()?;
        let after = self.before.share()?;
        let touched = self.touched.copy()?;
        Ok(Prim {
            before,
            after,
            touched,
            restyles: self.restyles,
        })
    }

    /// What it leaves of a state: the document after it, and a next paragraph number that is no lower than before.
    pub fn applied(&self, state: &TextState) -> Result<TextState, AllocError>
        ensures { IfOk result (λ new. new ≡ changed state.now self.now) }
    {
        let next = state.next().max(self.after.next());
        let rows = self.after.rows().share()?;
        let names = Arc::try_clone(self.after.names())?;
        self.after.with_body(rows, names, self.after.counts(), next)
    }
}
