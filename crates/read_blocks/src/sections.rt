//! Sections, and the paragraphs of notes.
ghost use Rattle.std.specs.Prelude.{◌≡◌, ◌++◌, [], ◌∷◌, Bool, List, length, map, take, IfOk, OnOk};
ghost use Rattle.std.specs.Option.{option_map};
ghost use Rattle.doc_model.specs.declared.block.Block.{roll-Block};
ghost use Rattle.doc_model.specs.declared.block.Block.TheOpen.{Block-F};
ghost use Rattle.doc_model.specs.declared.style.Family.TheVariants as family;
ghost use Rattle.load_model.specs.declared.element.Element.{out-Element};
ghost use Rattle.load_model.specs.Blocks as blocks;
ghost use Rattle.load_model.specs.Blocks.{Known, kept_section, or_empty, paragraphs_of, without_declarations};
ghost use Rattle.load_model.specs.Left.{all_of, attributes_of};
ghost use Rattle.sheet_names.specs.Known.{Knows, of_family};
ghost use Rattle.element_parts.specs.Shown.{shown};
ghost use Rattle.block_parts.specs.Values.{section_by};
ghost use Rattle.read_blocks.specs.Adds.{Adds, AreBlocks};
ghost use Rattle.read_blocks.specs.Kept.{first_of};
ghost use Rattle.read_blocks.specs.Shown.{shown_source};

use crate::read::{ReadBlocks, ReadSource};
use block_parts::{empty_paragraph, section, section_left};
use doc_model::{Block, Par, SectionSource};
use element_parts::LeftOut;
use load_model::Element;
use sheet_names::Names;
use sqlite_items::Items;
use std::alloc::{AllocError, Global};

impl ReadBlocks {
    /// Adds the section that an element is, with what is read in it. Its first source is read, and no declaration.
    pub fn push_section(
        &mut self,
        alloc: Global,
        names: &Names,
        element: &Element,
        held: ReadBlocks,
    ) -> Result<(), AllocError>
        ensures { OnOk result ((in_note : Bool) (known : Known) (more : blocks.ReadBlocks) → Knows names.now known.names → AreBlocks in_note held more → Adds in_note self.old self.new (kept_section known (out-Element element.now).place (attributes_of element.now) (without_declarations more))) }
    {
        let ReadBlocks {
            blocks,
            sources,
            declarations,
            left,
        } = held;
        let left = left_in_section(names, element, &sources, declarations.len(), left);
        let source = first_source(sources);
        let block = section_block(alloc, names, element, source, blocks)?;
        self.blocks.push(block)?;
        self.left = self.left.both(left);
        Ok(())
    }
}

// The section that an element is, with its source and these blocks, or an empty paragraph where there are none.
fn section_block(
    alloc: Global,
    names: &Names,
    element: &Element,
    source: Option<SectionSource>,
    blocks: Vec<Block>,
) -> Result<Block, AllocError>
    ensures { IfOk result (λ block. block ≡ roll-Block (Block-F.Section (section_by (of_family names.now.styles family.Section) (attributes_of element.now) source (or_empty (out-Element element.now).place blocks.items)))) }
{
    let blocks = or_empty(alloc, element.place, blocks)?;
    let section = section(alloc, names, element, source, Items::from_vec(blocks))?;
    Ok(Block::Section(section))
}

// The first of some sources, if there is one.
fn first_source(sources: Vec<ReadSource>) -> Option<SectionSource>
    ensures { result ≡ option_map (λ read. read.source) (first_of sources.items) }
{
    let mut sources = sources;
    if sources.is_empty() {
        return None;
    }
    Some(sources.remove(0).source)
}

// What is left out in a section in which these sources and so many declarations stand, and so much is left out besides.
fn left_in_section(
    names: &Names,
    element: &Element,
    sources: &[ReadSource],
    declarations: usize,
    left: LeftOut,
) -> LeftOut
    ensures { (known : Known) (more : blocks.ReadBlocks) → Knows names.now known.names → sources.now ≡ map shown_source more.sources → declarations ≡ length more.declarations → left ≡ shown more.left → result ≡ shown (kept_section known (out-Element element.now).place (attributes_of element.now) (without_declarations more)).left }
{
    LeftOut::nothing()
        .both(section_left(names, element))
        .both(first_left(sources))
        .both(LeftOut::elements(sources.len().saturating_sub(1)))
        .both(LeftOut::elements(declarations).both(left))
}

// What is left out in the first of some sources, if there is one.
fn first_left(sources: &[ReadSource]) -> LeftOut
    ensures { (all : List blocks.ReadSource) → sources.now ≡ map shown_source all → result ≡ shown (all_of (map (λ read. read.left) (take 1 all))) }
{
    match sources {
        [first, ..] => LeftOut::nothing().both(first.left),
        [] => LeftOut::nothing(),
    }
}

/// Blocks, or an empty paragraph where there are none.
pub fn or_empty(alloc: Global, place: u32, blocks: Vec<Block>) -> Result<Vec<Block>, AllocError>
    ensures { IfOk result (λ all. all.items ≡ or_empty place blocks.items) }
{
    let mut all = blocks;
    if all.is_empty() {
        all.push(Block::Par(empty_paragraph(alloc, place)))?;
    }
    Ok(all)
}

/// The paragraphs among blocks, which are moved.
pub fn paragraphs_in(alloc: Global, blocks: Vec<Block>) -> Result<Items<Par>, AllocError>
    ensures { IfOk result (λ pars. pars ≡ paragraphs_of blocks.items) }
{
    let mut left = blocks;
    let mut pars = Vec::new(alloc);
    'blocks: while let Some(block) = left.pop() {
        push_par(&mut pars, block)?;
    }
    pars.reverse();
    Ok(Items::from_vec(pars))
}

// Adds a block, if it is a paragraph.
fn push_par(pars: &mut Vec<Par>, block: Block) -> Result<(), AllocError>
    ensures { OnOk result (pars.new.items ≡ pars.old.items ++ paragraphs_of (block ∷ [])) }
{
    match block {
        Block::Par(par) => {
            pars.push(par)?;
            Ok(())
        }
        Block::Section(_section) => Ok(()),
    }
}
