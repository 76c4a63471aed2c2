//! What blocks as they are kept are to a document. Its function does nothing.
ghost use Rattle.std.specs.Prelude.{◌≡◌, false};
ghost use Rattle.doc_model.specs.Alike.{in_block};
ghost use Rattle.doc_model.specs.declared.block.Block.{Block};
ghost use Rattle.read_blocks.specs.Kept.{at_ten, kept_block};

/// Blocks of a body are kept with a change to each paragraph, those of notes too: its list place has at most ten levels.
pub fn kept_as_changed()
    ensures { (block : Block) → kept_block false block ≡ in_block at_ten block }
{}
