//! Blocks and the whole document.
ghost use Rattle.std.specs.Prelude.{◌≡◌, ◌≢◌, ℕ, ◌+◌, ◌<◌, ◌^◌, List, [], map, length, IfOk, OnOk, AllPairs};
ghost use Rattle.std.specs.List.{flat_map};
ghost use Rattle.doc_model.specs.declared.block.Section.{out-Section, roll-Section};
ghost use Rattle.doc_model.specs.Alike.{in_block, in_document};
ghost use Rattle.doc_model.specs.Reading.{paragraphs, number_of};
ghost use Rattle.load_model.specs.Loaded.{numbered};
ghost use Rattle.doc_numbers.specs.Numbering.{Follow, block_pars};

use crate::paragraphs::number_par;
use doc_model::{Block, Document, List, Section};
use item_stack::Stack;
use sqlite_items::Items;
use std::alloc::{AllocError, Global};

/// The document with its paragraphs numbered from 1 in reading order, those of notes too, and with list places of at
/// most ten levels. A number is found by the place of the first paragraph that has the old one, so the old ones are
/// to be distinct.
pub fn number_paragraphs(alloc: Global, doc: Document) -> Result<Document, AllocError>
    requires { length (paragraphs doc) < 2 ^ 32 }
    ensures { IfOk result (λ one. AllPairs (λ number other. number ≢ other) (map number_of (paragraphs doc)) → one ≡ in_document (numbered (map number_of (paragraphs doc))) doc) }
{
    let Document {
        global,
        defaults,
        styles,
        lists,
        outline,
        layouts,
        masters,
        variables,
        sequences,
        counting,
        body,
    } = doc;
    let body = number_body(alloc, body)?;
    Ok(Document {
        global,
        defaults,
        styles,
        lists,
        outline,
        layouts,
        masters,
        variables,
        sequences,
        counting,
        body,
    })
}

// The blocks of a body, numbered from 1.
fn number_body(alloc: Global, body: List<Block>) -> Result<List<Block>, AllocError>
    requires { length (flat_map block_pars body) < 2 ^ 32 }
    ensures { IfOk result (λ all. (numbers : List ℕ) → Follow numbers 0 (flat_map block_pars body) → all ≡ map (in_block (numbered numbers)) body) }
{
    let mut last = 0;
    let blocks = number_blocks(alloc, Stack::from_vec(body.into_vec()), &mut last)?;
    Ok(List::from_list(blocks))
}

// The blocks with their paragraphs numbered behind the last number that was given.
#[cycle(number_block)]
fn number_blocks(
    alloc: Global,
    blocks: Stack<Block>,
    last: &mut u32,
) -> Result<Vec<Block>, AllocError>
    requires { last.old + length (flat_map block_pars blocks) < 2 ^ 32 }
    ensures counted { OnOk result (last.new ≡ last.old + length (flat_map block_pars blocks)) }
    ensures numbered { IfOk result (λ all. (numbers : List ℕ) → Follow numbers last.old (flat_map block_pars blocks) → all.items ≡ map (in_block (numbered numbers)) blocks) }
{
    let mut left = blocks;
    let mut done = Vec::with_capacity(alloc, left.len())?;
    'left: while let Some(block) = left.pop() {
        done.push(number_block(alloc, block, last)?)?;
    }
    Ok(done)
}

// The block with its paragraphs numbered.
#[cycle(number_block)]
fn number_block(alloc: Global, block: Block, last: &mut u32) -> Result<Block, AllocError>
    requires { last.old + length (block_pars block) < 2 ^ 32 }
    ensures counted { OnOk result (last.new ≡ last.old + length (block_pars block)) }
    ensures numbered { IfOk result (λ one. (numbers : List ℕ) → Follow numbers last.old (block_pars block) → one ≡ in_block (numbered numbers) block) }
{
    match block {
        Block::Par(par) => Ok(Block::Par(number_par(alloc, par, last)?)),
        Block::Section(section) => Ok(Block::Section(number_section(alloc, section, last)?)),
    }
}

// The section with its paragraphs numbered.
#[cycle(number_block)]
fn number_section(alloc: Global, section: Section, last: &mut u32) -> Result<Section, AllocError>
    requires { last.old + length (flat_map block_pars (out-Section section).blocks) < 2 ^ 32 }
    ensures counted { OnOk result (last.new ≡ last.old + length (flat_map block_pars (out-Section section).blocks)) }
    ensures numbered { IfOk result (λ one. (numbers : List ℕ) → Follow numbers last.old (flat_map block_pars (out-Section section).blocks) → one ≡ roll-Section (record (out-Section section) { blocks = map (in_block (numbered numbers)) (out-Section section).blocks })) }
{
    let Section {
        kind,
        name,
        style,
        protected,
        hidden,
        source,
        blocks,
    } = section;
    let blocks = number_blocks(alloc, Stack::from_items(alloc, blocks)?, last)?;
    Ok(Section {
        kind,
        name,
        style,
        protected,
        hidden,
        source,
        blocks: Items::from_vec(blocks),
    })
}
