//! Copies of paragraphs and blocks, with all that they hold.

ghost use Rattle.std.specs.Prelude.{◌≡◌, IfOk};

use crate::block::{Block, Section};
use crate::paragraph::{Item, Note, Par, What};
use sqlite_items::{Boxed, Items};
use std::alloc::{AllocError, Global};

/// A copy of a paragraph, with its notes.
#[cycle(copy_par)]
pub fn copy_par(alloc: Global, par: &Par) -> Result<Par, AllocError>
    ensures { IfOk result (λ c. c ≡ par.now) }
{
    let style = par.style.copy()?;
    let list = copy_option(&par.list)?;
    let items = copy_items(alloc, &par.items)?;
    Ok(Par {
        id: par.id,
        style,
        level: par.level,
        list,
        items,
    })
}

/// A copy of the items of a paragraph.
#[cycle(copy_par)]
pub fn copy_items(alloc: Global, items: &Items<Item>) -> Result<Items<Item>, AllocError>
    ensures { IfOk result (λ c. c ≡ items.now) }
{
    let originals = items.as_slice();
    let mut copies = Vec::with_capacity(alloc, originals.len())?;
    for item in originals {
        copies.push(copy_item(alloc, item)?)?;
    }
    Ok(Items::from_vec(copies))
}

/// A copy of an item, with its spans.
#[cycle(copy_par)]
pub fn copy_item(alloc: Global, item: &Item) -> Result<Item, AllocError>
    ensures { IfOk result (λ c. c ≡ item.now) }
{
    let spans = item.spans.copy()?;
    let what = copy_what(alloc, &item.what)?;
    Ok(Item { spans, what })
}

/// A copy of what an item is.
#[cycle(copy_par)]
pub fn copy_what(alloc: Global, what: &What) -> Result<What, AllocError>
    ensures { IfOk result (λ c. c ≡ what.now) }
{
    match what {
        What::Char(letter) => Ok(What::Char(*letter)),
        What::Tab => Ok(What::Tab),
        What::Break => Ok(What::Break),
        What::Field(field) => Ok(What::Field(Boxed::new(alloc, field.get().copy()?)?)),
        What::Note(note) => Ok(What::Note(Boxed::new(alloc, copy_note(alloc, note.get())?)?)),
        What::Mark(mark) => Ok(What::Mark(Boxed::new(alloc, mark.get().copy()?)?)),
    }
}

/// A copy of a note, with its paragraphs.
#[cycle(copy_par)]
pub fn copy_note(alloc: Global, note: &Note) -> Result<Note, AllocError>
    ensures { IfOk result (λ c. c ≡ note.now) }
{
    let id = note.id.copy()?;
    let pars = copy_pars(alloc, &note.pars)?;
    Ok(Note {
        id,
        class: note.class,
        pars,
    })
}

/// A copy of the paragraphs of a note.
#[cycle(copy_par)]
pub fn copy_pars(alloc: Global, pars: &Items<Par>) -> Result<Items<Par>, AllocError>
    ensures { IfOk result (λ c. c ≡ pars.now) }
{
    let originals = pars.as_slice();
    let mut copies = Vec::with_capacity(alloc, originals.len())?;
    for par in originals {
        copies.push(copy_par(alloc, par)?)?;
    }
    Ok(Items::from_vec(copies))
}

/// A copy of a block, with all that stands in it.
#[cycle(copy_block)]
pub fn copy_block(alloc: Global, block: &Block) -> Result<Block, AllocError>
    ensures { IfOk result (λ c. c ≡ block.now) }
{
    match block {
        Block::Par(par) => Ok(Block::Par(copy_par(alloc, par)?)),
        Block::Section(section) => Ok(Block::Section(copy_section(alloc, section)?)),
    }
}

/// A copy of a section, with its blocks.
#[cycle(copy_block)]
pub fn copy_section(alloc: Global, section: &Section) -> Result<Section, AllocError>
    ensures { IfOk result (λ c. c ≡ section.now) }
{
    let name = section.name.copy()?;
    let style = section.style.copy()?;
    let source = copy_option(&section.source)?;
    let blocks = copy_blocks(alloc, &section.blocks)?;
    Ok(Section {
        kind: section.kind,
        name,
        style,
        protected: section.protected,
        hidden: section.hidden,
        source,
        blocks,
    })
}

/// A copy of the blocks of a section.
#[cycle(copy_block)]
pub fn copy_blocks(alloc: Global, blocks: &Items<Block>) -> Result<Items<Block>, AllocError>
    ensures { IfOk result (λ c. c ≡ blocks.now) }
{
    let originals = blocks.as_slice();
    let mut copies = Vec::with_capacity(alloc, originals.len())?;
    for block in originals {
        copies.push(copy_block(alloc, block)?)?;
    }
    Ok(Items::from_vec(copies))
}

impl Clone for Item {
    ghost is_clone = { λ x y. y ≡ x };

    fn clone(&self) -> Result<Item, AllocError> {
        copy_item(self.spans.allocator(), self)
    }
}

impl Clone for Par {
    ghost is_clone = { λ x y. y ≡ x };

    fn clone(&self) -> Result<Par, AllocError> {
        copy_par(self.style.allocator(), self)
    }
}

impl Clone for Section {
    ghost is_clone = { λ x y. y ≡ x };

    fn clone(&self) -> Result<Section, AllocError> {
        copy_section(self.name.allocator(), self)
    }
}

impl Clone for Block {
    ghost is_clone = { λ x y. y ≡ x };

    fn clone(&self) -> Result<Block, AllocError> {
        match self {
            Block::Par(par) => Ok(Block::Par(par.clone()?)),
            Block::Section(section) => Ok(Block::Section(section.clone()?)),
        }
    }
}

/// A clone of what is there, if anything is, where clones equal what they are cloned from.
pub(crate) fn copy_option<T: Clone>(given: &Option<T>) -> Result<Option<T>, AllocError>
    requires { (x y : T) → T.is_clone x y → y ≡ x }
    ensures { IfOk result (λ c. c ≡ given.now) }
{
    match given {
        Some(value) => Ok(Some(value.clone()?)),
        None => Ok(None),
    }
}
