//! What the first paragraphs of lists and items begin.
ghost use Rattle.std.specs.Prelude.{◌≡◌, ℕ, Bool, true, length};
ghost use Rattle.load_model.specs.Blocks as blocks;
ghost use Rattle.load_model.specs.Blocks.{is_directly_in};
ghost use Rattle.read_blocks.specs.Adds.{Adds};
ghost use Rattle.read_blocks.specs.First.{behind, first_place, with_first};
ghost use Rattle.block_parts.specs.declared.begins.Begins.TheVariants as begins;

use crate::read::ReadBlocks;
use block_parts::{Begins, begin_at};

impl ReadBlocks {
    /// Lets the first paragraph directly in so many lists, if there is one, begin an item. Its place is given.
    pub fn begin_item(&mut self, first: Option<usize>)
        ensures { (in_note : Bool) (old : ReadBlocks) (more : blocks.ReadBlocks) (level : ℕ) → Adds in_note old self.old more → first ≡ behind (length old.blocks.items) (first_place (is_directly_in level) more.blocks) → Adds in_note old self.new (with_first (is_directly_in level) begins.Item more) }
    {
        match first {
            Some(at) => begin_at(&mut self.blocks, at, Begins::Item),
            None => {}
        }
    }

    /// Lets the first of the blocks from a place on, if there is one, begin counting.
    pub fn begin_counting(&mut self, from: usize)
        ensures { (in_note : Bool) (old : ReadBlocks) (more : blocks.ReadBlocks) → Adds in_note old self.old more → from ≡ length old.blocks.items → Adds in_note old self.new (with_first (λ block. true) begins.Counting more) }
    {
        begin_at(&mut self.blocks, from, Begins::Counting)
    }
}
