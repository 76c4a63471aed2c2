//! The rows of a body.
ghost use Rattle.std.specs.Prelude.{◌≡◌, ◌++◌, ◌∷◌, [], List, map, IfOk, OnOk};
ghost use Rattle.std.specs.List.{flat_map};
ghost use Rattle.node_array.specs.Rows.{par_rows, block_rows, rows_of};
ghost use Rattle.text_state.specs.PartRows.{item_rows, what_rows, note_rows, section_rows, head_of};

use crate::bare::bare_items;
use doc_model::{Block, Item, Note, Par, ParHead, Section, What};
use node_array::{NodeArray, Row, SectionHead};
use sqlite_items::Items;
use std::alloc::{AllocError, Global};

/// The node array of a body.
pub fn array_of(alloc: Global, body: &[Block]) -> Result<NodeArray, AllocError>
    ensures { IfOk result (λ array. array ≡ body.now) }
{
    let rows = rows_of(alloc, body)?;
    let mut array = NodeArray::new(alloc);
    array.splice_rows(0, 0, rows.as_slice())?;
    Ok(array)
}

// The rows of a body.
fn rows_of(alloc: Global, body: &[Block]) -> Result<Vec<Row>, AllocError>
    ensures { IfOk result (λ rows. rows.items ≡ rows_of body.now) }
{
    let mut rows = Vec::new(alloc);
    for block in body {
        push_block(alloc, &mut rows, block)?;
    }
    Ok(rows)
}

// Appends the rows of a block.
#[cycle(push_block)]
fn push_block(alloc: Global, rows: &mut Vec<Row>, block: &Block) -> Result<(), AllocError>
    ensures { OnOk result (rows.new.items ≡ rows.old.items ++ block_rows block.now) }
{
    match block {
        Block::Par(par) => push_par(alloc, rows, par),
        Block::Section(section) => push_section(alloc, rows, section),
    }
}

// Appends those of a section.
#[cycle(push_block)]
fn push_section(alloc: Global, rows: &mut Vec<Row>, section: &Section) -> Result<(), AllocError>
    ensures { OnOk result (rows.new.items ≡ rows.old.items ++ section_rows section.now) }
{
    rows.push(Row::Start(section_head(section)?))?;
    push_blocks(alloc, rows, &section.blocks)?;
    rows.push(Row::End)?;
    Ok(())
}

// Appends those of some blocks.
#[cycle(push_block)]
fn push_blocks(alloc: Global, rows: &mut Vec<Row>, blocks: &Items<Block>) -> Result<(), AllocError>
    ensures { OnOk result (rows.new.items ≡ rows.old.items ++ flat_map block_rows blocks.now) }
{
    for block in blocks.as_slice() {
        push_block(alloc, rows, block)?;
    }
    Ok(())
}

// A section without its blocks.
fn section_head(section: &Section) -> Result<SectionHead, AllocError>
    ensures { IfOk result (λ head. head ≡ head_of section.now) }
{
    let name = section.name.copy()?;
    let style = section.style.copy()?;
    let source = match &section.source {
        Some(source) => Some(source.copy()?),
        None => None,
    };
    Ok(SectionHead {
        kind: section.kind,
        name,
        style,
        protected: section.protected,
        hidden: section.hidden,
        source,
    })
}

// Appends the rows of a paragraph.
#[cycle(push_par)]
fn push_par(alloc: Global, rows: &mut Vec<Row>, par: &Par) -> Result<(), AllocError>
    ensures { OnOk result (rows.new.items ≡ rows.old.items ++ par_rows par.now) }
{
    let style = par.style.copy()?;
    let list = copied_list(&par.list)?;
    let head = ParHead {
        id: par.id,
        style,
        level: par.level,
        list,
    };
    let items = bare_items(alloc, par.items.as_slice())?;
    rows.push(Row::Par(head, items))?;
    push_texts(alloc, rows, &par.items)
}

// Appends those of the notes among some items.
#[cycle(push_par)]
fn push_texts(alloc: Global, rows: &mut Vec<Row>, items: &Items<Item>) -> Result<(), AllocError>
    ensures { OnOk result (rows.new.items ≡ rows.old.items ++ flat_map (λ item. (item_rows item).1) items.now) }
{
    for item in items.as_slice() {
        push_text(alloc, rows, item)?;
    }
    Ok(())
}

// Appends those of an item, if it is a note.
#[cycle(push_par)]
fn push_text(alloc: Global, rows: &mut Vec<Row>, item: &Item) -> Result<(), AllocError>
    ensures { OnOk result (rows.new.items ≡ rows.old.items ++ (item_rows item.now).1) }
{
    push_what(alloc, rows, &item.what)
}

// Appends those of what an item is, if it is a note.
#[cycle(push_par)]
fn push_what(alloc: Global, rows: &mut Vec<Row>, what: &What) -> Result<(), AllocError>
    ensures { OnOk result (rows.new.items ≡ rows.old.items ++ (what_rows what.now).1) }
{
    match what {
        What::Note(note) => push_note(alloc, rows, note.get()),
        _ => Ok(()),
    }
}

// Appends those of a note.
#[cycle(push_par)]
fn push_note(alloc: Global, rows: &mut Vec<Row>, note: &Note) -> Result<(), AllocError>
    ensures { OnOk result (rows.new.items ≡ rows.old.items ++ (note_rows note.now).1) }
{
    rows.push(Row::NoteText)?;
    push_pars(alloc, rows, &note.pars)?;
    rows.push(Row::End)?;
    Ok(())
}

// Appends those of the paragraphs of a note.
#[cycle(push_par)]
fn push_pars(alloc: Global, rows: &mut Vec<Row>, pars: &Items<Par>) -> Result<(), AllocError>
    ensures { OnOk result (rows.new.items ≡ rows.old.items ++ flat_map par_rows pars.now) }
{
    for par in pars.as_slice() {
        push_par(alloc, rows, par)?;
    }
    Ok(())
}

// A copy of a list place, if there is one.
fn copied_list(list: &Option<doc_model::ListPos>) -> Result<Option<doc_model::ListPos>, AllocError>
    ensures { IfOk result (λ copy. copy ≡ list.now) }
{
    match list {
        Some(place) => Ok(Some(place.copy()?)),
        None => Ok(None),
    }
}
