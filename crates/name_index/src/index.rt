//! The index of names.

ghost use Rattle.std.specs.Prelude.{◌≡◌, ℕ, List, [], Option, Some, None, IfOk, OnOk, OnErr};
ghost use Rattle.std.specs.Str.{bytes_eq};
ghost use Rattle.indexmap.specs.IndexMap.{get, Updates};
ghost use Rattle.doc_model.specs.declared.document.Document.{Document};
ghost use Rattle.doc_model.specs.declared.paragraph.ParId.{ParId};
ghost use Rattle.name_index.specs.declared.names.NameKind.{NameKind};
ghost use Rattle.name_index.specs.Names.{found, Agree, Sets};
ghost use Rattle.name_index.specs.Scan.{scanned, names_of};

use crate::names::NameKind;
use doc_model::{Name, ParId};
use indexmap::IndexMap;
use std::alloc::{AllocError, Global};
use std::marker::Model;

/// The names of a document, found by kind and name. Contracts see it as a list of names with their paragraphs.
#[derive(Drop)]
pub struct NameIndex {
    bookmarks: IndexMap<Name, ParId>,
    sections: IndexMap<Name, ParId>,
    references: IndexMap<Name, ParId>,
    notes: IndexMap<Name, ParId>,
}

impl Model for NameIndex {
    ghost use Rattle.std.specs.Prelude.{List};
    ghost use Rattle.name_index.specs.declared.names.Named.{Named};
    ghost use Rattle.name_index.specs.Names.{of_kinds};

    ghost Value = { List Named };

    ghost view = { λ index. of_kinds index.bookmarks.entries index.sections.entries index.references.entries index.notes.entries };
}

impl NameIndex {
    /// An index of no names. It takes no memory.
    pub fn new(alloc: Global) -> NameIndex
        ensures { result ≡ [] }
    {
        NameIndex {
            bookmarks: IndexMap::new(alloc),
            sections: IndexMap::new(alloc),
            references: IndexMap::new(alloc),
            notes: IndexMap::new(alloc),
        }
    }

    /// An index of the same names.
    pub fn copy(&self) -> Result<NameIndex, AllocError>
        ensures { IfOk result (λ index. index ≡ self.now) }
    {
        let bookmarks = self.bookmarks.clone()?;
        let sections = self.sections.clone()?;
        let references = self.references.clone()?;
        let notes = self.notes.clone()?;
        Ok(NameIndex {
            bookmarks,
            sections,
            references,
            notes,
        })
    }

    /// The paragraph that a name leads to, if there is one of this kind and name. It takes no memory.
    pub fn find(&self, kind: NameKind, name: &Name) -> Option<ParId>
        ensures there { result ≡ found self.now kind name.now }
        ensures scan { (doc : Document) → Agree self.now (names_of doc) → result ≡ scanned doc kind name.now }
    {
        match kind {
            NameKind::Bookmark => paragraph_of(&self.bookmarks, name),
            NameKind::Section => paragraph_of(&self.sections, name),
            NameKind::Reference => paragraph_of(&self.references, name),
            NameKind::Note => paragraph_of(&self.notes, name),
        }
    }

    /// Makes a name lead to a paragraph, in place of the one that it led to. After want of memory all is as before.
    pub fn add(&mut self, kind: NameKind, name: &Name, par: ParId) -> Result<(), AllocError>
        ensures added { OnOk result (Sets self.old self.new kind name.now (Some par)) }
        ensures kept { OnErr result (self.new ≡ self.old) }
    {
        let name = name.copy()?;
        match kind {
            NameKind::Bookmark => put(&mut self.bookmarks, name, par),
            NameKind::Section => put(&mut self.sections, name, par),
            NameKind::Reference => put(&mut self.references, name, par),
            NameKind::Note => put(&mut self.notes, name, par),
        }
    }

    /// Makes a name lead nowhere. It takes no memory.
    pub fn drop_name(&mut self, kind: NameKind, name: &Name)
        ensures { Sets self.old self.new kind name.now None }
    {
        match kind {
            NameKind::Bookmark => remove(&mut self.bookmarks, name),
            NameKind::Section => remove(&mut self.sections, name),
            NameKind::Reference => remove(&mut self.references, name),
            NameKind::Note => remove(&mut self.notes, name),
        }
    }
}

/// The paragraph of a name.
fn paragraph_of(names: &IndexMap<Name, ParId>, name: &Name) -> Option<ParId>
    ensures { result ≡ get bytes_eq names.now name.now }
{
    names.get(name).copied()
}

/// Puts a name with its paragraph.
fn put(names: &mut IndexMap<Name, ParId>, name: Name, par: ParId) -> Result<(), AllocError>
    ensures updates { OnOk result (Updates bytes_eq names.old names.new name (Some par)) }
    ensures err { OnErr result (names.new.entries ≡ names.old.entries) }
{
    names.insert(name, par)?;
    Ok(())
}

/// Takes a name out, if it is there.
fn remove(names: &mut IndexMap<Name, ParId>, name: &Name)
    ensures { Updates bytes_eq names.old names.new name.now None }
{
    let _ = names.swap_remove(name);
}
