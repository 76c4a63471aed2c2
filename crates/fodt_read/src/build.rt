//! Plain paragraphs and documents, made from their texts.
ghost use Rattle.std.specs.Prelude.{◌≡◌, ℕ, List, map, IfOk};
ghost use Rattle.doc_model.specs.declared.block.Block.{roll-Block};
ghost use Rattle.doc_model.specs.declared.block.Block.TheOpen.{Block-F};
ghost use Rattle.doc_model.specs.Plain.{plain_blocks, plain_document, plain_item, plain_paragraph};

use doc_model::{Block, Document, Item, List, Name, Par, ParId, Spans, What};
use sqlite_items::Items;
use std::alloc::{AllocError, Global};

// The block that is the paragraph of this number and text.
pub(crate) fn plain_block(alloc: Global, number: u32, text: &[u8]) -> Result<Block, AllocError>
    ensures { IfOk result (λ block. block ≡ roll-Block (Block-F.Par (plain_paragraph number text.now))) }
{
    let items = plain_items(alloc, text)?;
    Ok(Block::Par(Par {
        id: ParId(number),
        style: Name::none(alloc),
        level: 0,
        list: None,
        items: Items::from_vec(items),
    }))
}

// The characters of a text as items without spans.
fn plain_items(alloc: Global, text: &[u8]) -> Result<Vec<Item>, AllocError>
    ensures { IfOk result (λ items. items.items ≡ map plain_item text.now) }
{
    let mut items = Vec::with_capacity(alloc, text.len())?;
    for byte in text {
        items.push(Item {
            spans: Spans::none(alloc),
            what: What::Char(char::from(*byte)),
        })?;
    }
    Ok(items)
}

// The document whose body is these paragraphs, and that has nothing else.
#[tactic(auto, unfolding(doc_model::specs::Plain::plain_document))]
pub(crate) fn document_of(alloc: Global, blocks: Vec<Block>) -> Document
    ensures { (texts : List (List ℕ)) → blocks.items ≡ plain_blocks 1 texts → result ≡ plain_document texts }
{
    Document::from_body(alloc, List::from_list(blocks))
}
