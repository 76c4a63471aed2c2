//! The body of rows.
ghost use Rattle.std.specs.Prelude.{◌≡◌, ◌∷◌, [], IfOk, OnOk};
ghost use Rattle.doc_model.specs.declared.block.Block.{roll-Block};
ghost use Rattle.doc_model.specs.declared.block.Block.TheOpen.{Block-F};
ghost use Rattle.node_array.specs.Body.{read_row, put_block, put_texts};
ghost use Rattle.row_body.specs.Parts.{section_with};

use crate::level::Level;
use doc_model::{Block, Item, List, Par, ParHead, Section};
use item_stack::Stack;
use node_array::{NodeArray, Row, SectionHead};
use run_text::RunText;
use sqlite_items::Items;
use std::alloc::{AllocError, Global};

/// The blocks that the rows stand for. It goes over the rows once, from the last to the first.
pub fn body_of(alloc: Global, rows: &NodeArray) -> Result<List<Block>, AllocError>
    ensures { IfOk result (λ body. body ≡ rows.now) }
{
    let mut levels = Stack::new(alloc);
    levels.push(Level::new(alloc))?;
    for at in (0..rows.len()).rev() {
        read_row(alloc, &mut levels, rows.row(at))?;
    }
    match levels.pop() {
        Some(level) => Ok(List::from_list(level.into_blocks())),
        None => Ok(List::new(alloc)),
    }
}

// Reads one more row in front. The innermost level is on top.
fn read_row(alloc: Global, levels: &mut Stack<Level>, row: &Row) -> Result<(), AllocError>
    ensures { OnOk result (levels.new ≡ read_row row.now levels.old) }
{
    match row {
        Row::Start(head) => close_section(alloc, levels, head),
        Row::End => levels.push(Level::new(alloc)),
        Row::Par(head, items) => put_par(alloc, levels, head, items),
        Row::NoteText => close_note(alloc, levels),
    }
}

// Makes a section of the innermost level, and puts it into the next one.
fn close_section(
    alloc: Global,
    levels: &mut Stack<Level>,
    head: &SectionHead,
) -> Result<(), AllocError>
    ensures { OnOk result (levels.new ≡ read_row (Row.Start head.now) levels.old) }
{
    let Some(level) = levels.pop() else {
        return Ok(());
    };
    let section = section_with(head, Items::from_vec(level.into_blocks()))?;
    put_block(alloc, levels, Block::Section(section))
}

// Makes the text of a note of the innermost level, and puts it into the next one.
fn close_note(alloc: Global, levels: &mut Stack<Level>) -> Result<(), AllocError>
    ensures { OnOk result (levels.new ≡ read_row Row.NoteText levels.old) }
{
    let Some(level) = levels.pop() else {
        return Ok(());
    };
    let text = level.into_pars(alloc)?;
    put_text(levels, text)
}

// Puts a paragraph into the innermost level.
fn put_par(
    alloc: Global,
    levels: &mut Stack<Level>,
    head: &ParHead,
    items: &RunText<Item>,
) -> Result<(), AllocError>
    ensures { OnOk result (levels.new ≡ read_row (Row.Par head.now items.now) levels.old) }
{
    let Some(level) = levels.pop() else {
        return Ok(());
    };
    let level = level.with_par(alloc, head, items)?;
    levels.push(level)
}

// Puts a block into the innermost level.
fn put_block(alloc: Global, levels: &mut Stack<Level>, block: Block) -> Result<(), AllocError>
    ensures { OnOk result (levels.new ≡ put_block block levels.old) }
{
    let Some(level) = levels.pop() else {
        return Ok(());
    };
    let level = level.with_block(alloc, block)?;
    levels.push(level)
}

// Puts the text of a note into the innermost level.
fn put_text(levels: &mut Stack<Level>, text: Items<Par>) -> Result<(), AllocError>
    ensures { OnOk result (levels.new ≡ put_texts (text ∷ []) levels.old) }
{
    let Some(level) = levels.pop() else {
        return Ok(());
    };
    let level = level.with_text(text)?;
    levels.push(level)
}

// A section of these blocks.
fn section_with(head: &SectionHead, blocks: Items<Block>) -> Result<Section, AllocError>
    ensures { IfOk result (λ section. section ≡ section_with head.now blocks) }
{
    let SectionHead {
        kind,
        name,
        style,
        protected,
        hidden,
        source,
    } = head.copy()?;
    Ok(Section {
        kind,
        name,
        style,
        protected,
        hidden,
        source,
        blocks,
    })
}
