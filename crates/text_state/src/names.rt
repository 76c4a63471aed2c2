//! The name index of a document.

ghost use Rattle.std.specs.Prelude.{◌≡◌, ◌↔◌, ◌∷◌, [], IfOk, OnOk, IsTrue};
ghost use Rattle.name_index.specs.Names.{Agree, of_kind};
ghost use Rattle.name_index.specs.Scan.{names_of, names_of_kind, given};
ghost use Rattle.text_state.specs.NamePlaces.{Follows};

use crate::places::push_body;
use crate::section_places::push_sections;
use doc_model::{Document, Name, ParId};
use name_index::{NameIndex, NameKind};
use std::alloc::{AllocError, Global};

/// The index of a document's names: where more things of a kind have one name, it leads to the first one's paragraph.
pub fn names_of_document(alloc: Global, doc: &Document) -> Result<NameIndex, AllocError>
    ensures { IfOk result (λ index. Agree index (names_of doc.now)) }
{
    let mut index = NameIndex::new(alloc);
    add_kind(alloc, &mut index, NameKind::Bookmark, doc)?;
    add_kind(alloc, &mut index, NameKind::Section, doc)?;
    add_kind(alloc, &mut index, NameKind::Reference, doc)?;
    add_kind(alloc, &mut index, NameKind::Note, doc)?;
    Ok(index)
}

// Adds the names of a kind behind those that are there.
fn add_kind(
    alloc: Global,
    index: &mut NameIndex,
    kind: NameKind,
    doc: &Document,
) -> Result<(), AllocError>
    ensures { OnOk result (Follows index.old index.new (of_kind kind (given (names_of_kind doc.now kind)))) }
{
    let places = places_of(alloc, kind, doc)?;
    add_places(index, kind, places.as_slice())
}

// The names of a kind with their paragraphs, in reading order.
#[tactic(auto, using(crate::proofs::Gathered::bookmarks_gathered, crate::proofs::Gathered::references_gathered, crate::proofs::Gathered::notes_gathered))]
fn places_of(
    alloc: Global,
    kind: NameKind,
    doc: &Document,
) -> Result<Vec<(Name, ParId)>, AllocError>
    ensures { IfOk result (λ places. places.items ≡ names_of_kind doc.now kind) }
{
    let mut places = Vec::new(alloc);
    match kind {
        NameKind::Section => push_sections(&mut places, doc.body.get())?,
        _ => push_body(&mut places, kind, doc.body.get())?,
    }
    Ok(places)
}

// Adds names of a kind in their order.
fn add_places(
    index: &mut NameIndex,
    kind: NameKind,
    places: &[(Name, ParId)],
) -> Result<(), AllocError>
    ensures { OnOk result (Follows index.old index.new (of_kind kind (given places.now))) }
{
    for place in places {
        add_name(index, kind, &place.0, place.1)?;
    }
    Ok(())
}

// Adds a name, if it isn't empty and there is none such yet.
fn add_name(
    index: &mut NameIndex,
    kind: NameKind,
    name: &Name,
    par: ParId,
) -> Result<(), AllocError>
    ensures { OnOk result (Follows index.old index.new (of_kind kind (given ((name.now, par) ∷ [])))) }
{
    if is_none(name) {
        return Ok(());
    }
    match index.find(kind, name) {
        Some(_) => Ok(()),
        None => index.add(kind, name, par),
    }
}

// Whether a name is empty.
fn is_none(name: &Name) -> bool
    ensures { IsTrue result ↔ (name.now ≡ []) }
{
    name.is_same(&Name::none(name.allocator()))
}
