//! The names of a body with their paragraphs.

ghost use Rattle.std.specs.Prelude.{◌≡◌, ◌++◌, ◌∷◌, [], map, OnOk};
ghost use Rattle.std.specs.List.{flat_map};
ghost use Rattle.doc_model.specs.Parts.{mark_name};
ghost use Rattle.doc_model.specs.Valid.{refname_of};
ghost use Rattle.text_state.specs.NamePlaces.{item_places, par_places, read_places, text_places, block_places, section_places};

use doc_model::{Block, Field, Item, Mark, Name, Par, ParId, Section, What};
use name_index::NameKind;
use sqlite_items::Items;
use std::alloc::AllocError;

/// Appends the names of a kind in a body, each with its paragraph, in reading order. Those of sections are none of these.
pub(crate) fn push_body(
    places: &mut Vec<(Name, ParId)>,
    kind: NameKind,
    body: &[Block],
) -> Result<(), AllocError>
    ensures { OnOk result (places.new.items ≡ places.old.items ++ flat_map (block_places kind) body.now) }
{
    for block in body {
        push_block(places, kind, block)?;
    }
    Ok(())
}

// Appends those of a block.
#[cycle(push_block)]
#[tactic(auto, using(crate::proofs::Gathered::par_block, crate::proofs::Gathered::section_block))]
fn push_block(
    places: &mut Vec<(Name, ParId)>,
    kind: NameKind,
    block: &Block,
) -> Result<(), AllocError>
    ensures { OnOk result (places.new.items ≡ places.old.items ++ block_places kind block.now) }
{
    match block {
        Block::Par(par) => push_text(places, kind, par),
        Block::Section(section) => push_section(places, kind, section),
    }
}

// Appends those of a section.
#[cycle(push_block)]
fn push_section(
    places: &mut Vec<(Name, ParId)>,
    kind: NameKind,
    section: &Section,
) -> Result<(), AllocError>
    ensures { OnOk result (places.new.items ≡ places.old.items ++ section_places kind section.now) }
{
    for block in section.blocks.as_slice() {
        push_block(places, kind, block)?;
    }
    Ok(())
}

// Appends those of a paragraph as it is read.
fn push_text(places: &mut Vec<(Name, ParId)>, kind: NameKind, par: &Par) -> Result<(), AllocError>
    ensures { OnOk result (places.new.items ≡ places.old.items ++ text_places kind par.now) }
{
    for item in par.items.as_slice() {
        push_read(places, kind, par.id, item)?;
    }
    Ok(())
}

// Appends those of an item as it is read.
fn push_read(
    places: &mut Vec<(Name, ParId)>,
    kind: NameKind,
    par: ParId,
    item: &Item,
) -> Result<(), AllocError>
    ensures { OnOk result (places.new.items ≡ places.old.items ++ read_places kind par item.now) }
{
    push_item(places, kind, par, item)?;
    match &item.what {
        What::Note(note) => push_pars(places, kind, &note.get().pars),
        _ => Ok(()),
    }
}

// Appends those of the paragraphs of a note.
fn push_pars(
    places: &mut Vec<(Name, ParId)>,
    kind: NameKind,
    pars: &Items<Par>,
) -> Result<(), AllocError>
    ensures { OnOk result (places.new.items ≡ places.old.items ++ flat_map (par_places kind) pars.now) }
{
    for par in pars.as_slice() {
        push_par(places, kind, par)?;
    }
    Ok(())
}

// Appends those of a paragraph of a note.
fn push_par(places: &mut Vec<(Name, ParId)>, kind: NameKind, par: &Par) -> Result<(), AllocError>
    ensures { OnOk result (places.new.items ≡ places.old.items ++ par_places kind par.now) }
{
    for item in par.items.as_slice() {
        push_item(places, kind, par.id, item)?;
    }
    Ok(())
}

// Appends the name of an item, if it has one of this kind.
fn push_item(
    places: &mut Vec<(Name, ParId)>,
    kind: NameKind,
    par: ParId,
    item: &Item,
) -> Result<(), AllocError>
    ensures { OnOk result (places.new.items ≡ places.old.items ++ item_places kind par item.now) }
{
    match (kind, &item.what) {
        (NameKind::Bookmark, What::Mark(mark)) => push_mark(places, par, mark.get()),
        (NameKind::Reference, What::Field(field)) => push_field(places, par, field.get()),
        (NameKind::Note, What::Note(note)) => push_name(places, par, &note.get().id),
        _ => Ok(()),
    }
}

// Appends the name of a mark.
fn push_mark(places: &mut Vec<(Name, ParId)>, par: ParId, mark: &Mark) -> Result<(), AllocError>
    ensures { OnOk result (places.new.items ≡ places.old.items ++ (mark_name mark.now, par) ∷ []) }
{
    match mark {
        Mark::Point(name) => push_name(places, par, name),
        Mark::Start(name) => push_name(places, par, name),
        Mark::End(name) => push_name(places, par, name),
    }
}

// Appends the reference name of a field, if it is a sequence field.
fn push_field(places: &mut Vec<(Name, ParId)>, par: ParId, field: &Field) -> Result<(), AllocError>
    ensures { OnOk result (places.new.items ≡ places.old.items ++ map (λ name. (name, par)) (refname_of field.now)) }
{
    match field {
        Field::Sequence { refname, .. } => push_name(places, par, refname),
        _ => Ok(()),
    }
}

// Appends a name.
pub(crate) fn push_name(
    places: &mut Vec<(Name, ParId)>,
    par: ParId,
    name: &Name,
) -> Result<(), AllocError>
    ensures { OnOk result (places.new.items ≡ places.old.items ++ (name.now, par) ∷ []) }
{
    places.push((name.copy()?, par))?;
    Ok(())
}
