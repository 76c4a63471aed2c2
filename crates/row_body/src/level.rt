//! What was read within one section, note or body.
ghost use Rattle.std.specs.Prelude.{◌≡◌, ◌++◌, ◌∷◌, [], IfOk, OnOk};
ghost use Rattle.doc_model.specs.declared.block.Block.{out-Block, roll-Block};
ghost use Rattle.doc_model.specs.declared.block.Block.TheOpen.{Block-F};
ghost use Rattle.node_array.specs.Body.{no_level, with_texts, par_of, pars_of};
ghost use Rattle.row_body.specs.Parts.{par_with};

use crate::texts::items_with;
use doc_model::{Block, Item, Par, ParHead};
use item_stack::Stack;
use run_text::RunText;
use sqlite_items::Items;
use std::alloc::{AllocError, Global};
use std::marker::Model;

/// What was read behind a place, within one section, note or body: the paragraphs of each note whose anchor stands
/// before it, and the blocks. The first ones are on top.
#[derive(Drop)]
pub(crate) struct Level {
    texts: Stack<Items<Par>>,
    blocks: Stack<Block>,
}

impl Model for Level {
    ghost use Rattle.std.specs.Coded.{codes};
    ghost use Rattle.doc_model.specs.contracts.block.Block as block;
    ghost use Rattle.doc_model.specs.contracts.paragraph.Par as par;
    ghost use Rattle.node_array.specs.Body.{Level};

    ghost Value = { Level };

    ghost coded = { Prim.hlevel (codes, block.the_row.coded, par.the_row.coded) };

    ghost view = { λ level. record { texts = level.texts; blocks = level.blocks } };
}

impl Level {
    /// Nothing was read. It takes no memory.
    pub(crate) fn new(alloc: Global) -> Level
        ensures { result ≡ no_level }
    {
        Level {
            texts: Stack::new(alloc),
            blocks: Stack::new(alloc),
        }
    }

    /// The level with a block in front, to which the texts belonged.
    pub(crate) fn with_block(self, alloc: Global, block: Block) -> Result<Level, AllocError>
        ensures { IfOk result (λ level. level ≡ record { texts = []; blocks = block ∷ self.blocks }) }
    {
        let Level {
            texts: _texts,
            mut blocks,
        } = self;
        blocks.push(block)?;
        Ok(Level {
            texts: Stack::new(alloc),
            blocks,
        })
    }

    /// The level with a paragraph in front, to whose notes the texts belong.
    pub(crate) fn with_par(
        self,
        alloc: Global,
        head: &ParHead,
        items: &RunText<Item>,
    ) -> Result<Level, AllocError>
        ensures { IfOk result (λ level. level ≡ record { texts = []; blocks = roll-Block (Block-F.Par (par_with head.now (with_texts items.now self.texts))) ∷ self.blocks }) }
    {
        let Level {
            mut texts,
            mut blocks,
        } = self;
        let ParHead {
            id,
            style,
            level,
            list,
        } = head.copy()?;
        let items = items_with(alloc, items, &mut texts)?;
        blocks.push(Block::Par(Par {
            id,
            style,
            level,
            list,
            items,
        }))?;
        Ok(Level {
            texts: Stack::new(alloc),
            blocks,
        })
    }

    /// The level with the paragraphs of a note in front.
    pub(crate) fn with_text(self, text: Items<Par>) -> Result<Level, AllocError>
        ensures { IfOk result (λ level. level ≡ record { texts = text ∷ self.texts; blocks = self.blocks }) }
    {
        let Level { mut texts, blocks } = self;
        texts.push(text)?;
        Ok(Level { texts, blocks })
    }

    /// The blocks.
    pub(crate) fn into_blocks(self) -> Vec<Block>
        ensures { result.items ≡ self.blocks }
    {
        let Level {
            texts: _texts,
            blocks,
        } = self;
        blocks.into_vec()
    }

    /// The paragraphs among the blocks.
    pub(crate) fn into_pars(self, alloc: Global) -> Result<Items<Par>, AllocError>
        ensures { IfOk result (λ pars. pars ≡ pars_of self.blocks) }
    {
        let Level {
            texts: _texts,
            mut blocks,
        } = self;
        let mut pars = Vec::new(alloc);
        while let Some(block) = blocks.pop() {
            push_par(&mut pars, block)?;
        }
        Ok(Items::from_vec(pars))
    }
}

// Appends a block, if it is a paragraph.
fn push_par(pars: &mut Vec<Par>, block: Block) -> Result<(), AllocError>
    ensures { OnOk result (pars.new.items ≡ pars.old.items ++ par_of (out-Block block)) }
{
    match block {
        Block::Par(par) => {
            pars.push(par)?;
            Ok(())
        }
        Block::Section(_section) => Ok(()),
    }
}
