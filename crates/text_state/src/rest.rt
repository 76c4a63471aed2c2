//! The parts of a document that few edits change.

ghost use Rattle.std.specs.Prelude.{◌≡◌, IfOk};
ghost use Rattle.text_state.specs.RestOf.{rest_of, with_name};

use doc_model::{DeclKind, Document, List, ListStyle, Master, Name, NoteStart, PageLayout};
use std::alloc::{AllocError, Global};
use std::marker::Model;
use std::sync::Arc;

/// The parts of a document other than its body, its default style and its styles. The fields are those of `Document`.
#[derive(Debug, Drop)]
pub struct RestParts {
    /// Whether it is a master document.
    pub global: bool,
    /// The list styles.
    pub lists: List<ListStyle>,
    /// The outline style.
    pub outline: ListStyle,
    /// The page layouts.
    pub layouts: List<PageLayout>,
    /// The master pages.
    pub masters: List<Master>,
    /// The declared variables.
    pub variables: List<Name>,
    /// The declared sequences.
    pub sequences: List<Name>,
    /// How footnotes are counted.
    pub counting: NoteStart,
}

impl RestParts {
    pub(crate) fn copy(&self) -> Result<RestParts, AllocError>
        ensures { IfOk result (λ copy. copy ≡ self.now) }
    {
        let lists = self.lists.copy()?;
        let outline = self.outline.copy()?;
        let layouts = self.layouts.copy()?;
        let masters = self.masters.copy()?;
        let variables = self.variables.copy()?;
        let sequences = self.sequences.copy()?;
        Ok(RestParts {
            global: self.global,
            lists,
            outline,
            layouts,
            masters,
            variables,
            sequences,
            counting: self.counting,
        })
    }

    // The parts with one more declared name.
    fn with_name(self, kind: DeclKind, name: Name) -> Result<RestParts, AllocError>
        ensures { IfOk result (λ parts. parts ≡ with_name kind name self) }
    {
        let mut parts = self;
        match kind {
            DeclKind::Sequence => {
                parts.sequences.push(name)?;
                Ok(parts)
            }
            DeclKind::Variable => {
                parts.variables.push(name)?;
                Ok(parts)
            }
        }
    }
}

/// These parts, shared by all states that have the same. Contracts see the parts.
#[derive(Drop)]
pub struct Rest {
    parts: Arc<RestParts>,
}

impl Model for Rest {
    ghost use Rattle.std.specs.Arc.{arc_value};
    ghost use Rattle.text_state.specs.declared.rest.RestParts.{RestParts};
    ghost use Rattle.std.specs.Coded.{codes};
    ghost use Rattle.doc_model.specs.contracts.paragraph.What as what;

    ghost Value = { RestParts };

    ghost coded = { Prim.hlevel (codes, what.the_row.coded) };

    ghost view = { λ rest. arc_value rest.parts };
}

impl Rest {
    /// The parts of a document.
    pub fn of(alloc: Global, doc: &Document) -> Result<Rest, AllocError>
        ensures { IfOk result (λ rest. rest ≡ rest_of doc.now) }
    {
        let lists = doc.lists.copy()?;
        let outline = doc.outline.copy()?;
        let layouts = doc.layouts.copy()?;
        let masters = doc.masters.copy()?;
        let variables = doc.variables.copy()?;
        let sequences = doc.sequences.copy()?;
        let parts = RestParts {
            global: doc.global,
            lists,
            outline,
            layouts,
            masters,
            variables,
            sequences,
            counting: doc.counting,
        };
        Ok(Rest {
            parts: Arc::new(alloc, parts)?,
        })
    }

    /// The parts, lent. It takes no memory.
    pub fn get(&self) -> &RestParts
        ensures { result.now ≡ self.now }
    {
        &self.parts
    }

    /// The same parts, shared. It takes no memory, and is refused only where a count of owners is at its end.
    pub fn share(&self) -> Result<Rest, AllocError>
        ensures { IfOk result (λ rest. rest ≡ self.now) }
    {
        Ok(Rest {
            parts: Arc::try_clone(&self.parts)?,
        })
    }

    /// The parts with one more declared name, the last of its kind.
    pub fn with_declared(&self, kind: DeclKind, name: &Name) -> Result<Rest, AllocError>
        ensures { IfOk result (λ rest. rest ≡ with_name kind name.now self.now) }
    {
        let name = name.copy()?;
        let parts = self.parts.copy()?.with_name(kind, name)?;
        let alloc = parts.lists.allocator();
        Ok(Rest {
            parts: Arc::new(alloc, parts)?,
        })
    }
}
