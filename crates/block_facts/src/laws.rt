//! What a paragraph and a section come to.
ghost use Rattle.std.specs.Prelude.{◌≡◌, ◌∷◌, [], map};
ghost use Rattle.std.specs.List.{flat_map};
ghost use Rattle.doc_model.specs.declared.block.Block.{Block, roll-Block};
ghost use Rattle.doc_model.specs.declared.block.Block.TheOpen.{Block-F, Section-F};
ghost use Rattle.doc_model.specs.declared.block.Section.{Section, roll-Section};
ghost use Rattle.doc_model.specs.declared.paragraph.Par.{Par};
ghost use Rattle.doc_model.specs.Alike.{in_block, in_paragraph};
ghost use Rattle.doc_model.specs.Reading.{block_paragraphs};

/// The paragraphs of a block: it, or those of the blocks of a section, in their order.
pub fn paragraphs_are_read()
    ensures par { (par : Par) → block_paragraphs (roll-Block (Block-F.Par par)) ≡ par ∷ [] }
    ensures section { (x : Section-F Block Section) → block_paragraphs (roll-Block (Block-F.Section (roll-Section x))) ≡ flat_map block_paragraphs x.blocks }
{}

/// A change of each paragraph of a block is that of it, or of each of the blocks of a section.
pub fn paragraphs_are_changed()
    ensures par { (change : Par → Par) (par : Par) → in_block change (roll-Block (Block-F.Par par)) ≡ roll-Block (Block-F.Par (in_paragraph change par)) }
    ensures section { (change : Par → Par) (x : Section-F Block Section)
        → in_block change (roll-Block (Block-F.Section (roll-Section x))) ≡ roll-Block (Block-F.Section (roll-Section (record x { blocks = map (in_block change) x.blocks }))) }
{}
