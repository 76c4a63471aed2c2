//! Blocks.

ghost use Rattle.std.specs.Prelude.{◌≡◌, ◌++◌, Bool, chars, string_bytes, map, OnOk};
ghost use Rattle.tree_text.specs.Writing.{child_text, content_text};
ghost use Rattle.written_model.specs.Blocks.{block_element};
ghost use Rattle.block_write.specs.Sections.{tag_start, start_of, holds_of, section_element};

use crate::sections::{SectionTag, push_section_end, push_section_start};
use doc_model::{Block, Section};
use paragraph_write::push_paragraph;
use sqlite_items::Items;
use std::alloc::AllocError;

/// What a section says of itself, before its blocks.
fn tag_of(section: &Section) -> SectionTag<'_>
    ensures { (holds : Bool) → tag_start result holds ≡ start_of section.now holds }
{
    SectionTag {
        name: &section.name,
        style: &section.style,
        protected: section.protected,
        hidden: section.hidden,
        source: &section.source,
    }
}

/// Whether a section holds a source or a block.
fn holds_some(section: &Section) -> bool
    ensures { result ≡ holds_of section.now }
{
    section.source.is_some() || !section.blocks.is_empty()
}

/// Adds a block.
#[cycle(push_block)]
pub fn push_block(out: &mut String, block: &Block) -> Result<(), AllocError>
    ensures { OnOk result (chars (string_bytes out.new) ≡ chars (string_bytes out.old) ++ child_text (block_element block.now)) }
{
    match block {
        Block::Par(par) => push_paragraph(out, par),
        Block::Section(section) => push_section(out, section),
    }
}

/// Adds a section.
#[cycle(push_block)]
fn push_section(out: &mut String, section: &Section) -> Result<(), AllocError>
    ensures { OnOk result (chars (string_bytes out.new) ≡ chars (string_bytes out.old) ++ child_text (section_element section.now)) }
{
    let some = holds_some(section);
    push_section_start(out, tag_of(section), some)?;
    push_items(out, &section.blocks)?;
    push_section_end(out, some)
}

/// Adds the blocks of a section.
#[cycle(push_block)]
fn push_items(out: &mut String, blocks: &Items<Block>) -> Result<(), AllocError>
    ensures { OnOk result (chars (string_bytes out.new) ≡ chars (string_bytes out.old) ++ content_text (map block_element blocks.now)) }
{
    for block in blocks.as_slice() {
        push_block(out, block)?;
    }
    Ok(())
}

/// Adds the blocks of a body.
pub fn push_blocks(out: &mut String, blocks: &[Block]) -> Result<(), AllocError>
    ensures { OnOk result (chars (string_bytes out.new) ≡ chars (string_bytes out.old) ++ content_text (map block_element blocks.now)) }
{
    for block in blocks {
        push_block(out, block)?;
    }
    Ok(())
}
