//! What is read where blocks are.
ghost use Rattle.std.specs.Prelude.{◌≡◌, ◌∷◌, [], Bool, length, List, OnOk};
ghost use Rattle.doc_model.specs.declared.block.Block.{Block};
ghost use Rattle.load_model.specs.Blocks as blocks;
ghost use Rattle.load_model.specs.Blocks.{Gives, no_blocks, blocks_alone, source_blocks, without_sources};
ghost use Rattle.load_model.specs.Left as left;
ghost use Rattle.load_model.specs.Left.{Left, attributes_of, children};
ghost use Rattle.element_parts.specs.Shown.{shown};
ghost use Rattle.read_blocks.specs.Kept.{kept_block};
ghost use Rattle.read_blocks.specs.Adds.{Adds, AreBlocks, one_block};

use block_parts::{source, source_left};
use doc_model::{Block, List, Name, SectionSource};
use element_parts::LeftOut;
use load_model::Element;
use std::alloc::{AllocError, Global};

/// The source of a section, with what is left out in its element.
#[derive(Debug, Drop)]
pub struct ReadSource {
    /// The source.
    pub source: SectionSource,
    /// What is left out.
    pub left: LeftOut,
}

/// A declaration of a name.
#[derive(Debug, Drop)]
pub struct Declared {
    /// The place of its element.
    pub place: u32,
    /// The name.
    pub name: Name,
    /// What is left out in it where it is kept.
    pub left: LeftOut,
}

/// Declarations of one element.
#[derive(Debug, Drop)]
pub struct ReadDeclarations {
    /// Whether of sequences or of variables.
    pub sequences: bool,
    /// Those with a name.
    pub declared: List<Declared>,
    /// What is left out between them.
    pub left: LeftOut,
}

/// What is read where blocks are: blocks, and the sources and declarations among them, which count only where a section or
/// the text itself reads them.
#[derive(Debug, Drop)]
pub struct ReadBlocks {
    /// The blocks.
    pub blocks: Vec<Block>,
    /// The sources.
    pub sources: Vec<ReadSource>,
    /// The declarations.
    pub declarations: Vec<ReadDeclarations>,
    /// What is left out.
    pub left: LeftOut,
}

impl ReadBlocks {
    /// Nothing. It takes no memory.
    pub fn new(alloc: Global) -> ReadBlocks
        ensures { (in_note : Bool) → AreBlocks in_note result (no_blocks left.nothing) }
    {
        ReadBlocks {
            blocks: Vec::new(alloc),
            sources: Vec::new(alloc),
            declarations: Vec::new(alloc),
            left: LeftOut::nothing(),
        }
    }

    /// Adds a block.
    pub fn push(&mut self, block: Block) -> Result<(), AllocError>
        ensures { OnOk result ((in_note : Bool) (one : Block) → block ≡ kept_block in_note one → Adds in_note self.old self.new (one_block one left.nothing)) }
    {
        self.blocks.push(block)?;
        Ok(())
    }

    /// Counts more that is left out.
    pub fn leave_out(&mut self, left: LeftOut)
        ensures { (in_note : Bool) (more : Left) → left ≡ shown more → Adds in_note self.old self.new (no_blocks more) }
    {
        self.left = self.left.both(left);
    }

    /// Adds the source of a section.
    pub fn push_source(&mut self, alloc: Global, element: &Element) -> Result<(), AllocError>
        ensures { OnOk result ((in_note : Bool) (gives : List Gives) → length gives ≡ length (children element.now) → Adds in_note self.old self.new (source_blocks (attributes_of element.now) gives)) }
    {
        let source = source(alloc, element)?;
        self.sources.push(ReadSource {
            source,
            left: source_left(element),
        })?;
        Ok(())
    }

    /// Drops the sources and declarations behind the first ones: each is left out as an element.
    pub fn drop_behind(&mut self, sources: usize, declarations: usize)
        ensures { (in_note : Bool) (old : ReadBlocks) (more : blocks.ReadBlocks) → Adds in_note old self.old more → sources ≡ length old.sources.items → declarations ≡ length old.declarations.items → Adds in_note old self.new (blocks_alone more) }
    {
        let dropped_declarations = self.declarations.len().saturating_sub(declarations);
        let dropped_sources = self.sources.len().saturating_sub(sources);
        self.declarations.truncate(declarations);
        self.sources.truncate(sources);
        self.left = self
            .left
            .both(LeftOut::elements(dropped_declarations))
            .both(LeftOut::elements(dropped_sources));
    }

    /// Drops the sources: each is left out as an element.
    pub fn drop_sources(&mut self)
        ensures { (in_note : Bool) (all : blocks.ReadBlocks) → AreBlocks in_note self.old all → AreBlocks in_note self.new (without_sources all) }
    {
        let dropped = LeftOut::elements(self.sources.len());
        self.sources.truncate(0);
        self.left = dropped.both(self.left);
    }
}
