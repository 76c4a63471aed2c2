//! A plain document while a group of edits is made on it.

ghost use Rattle.std.specs.Prelude.{◌≡◌, ℕ, ◌+◌, ◌-◌, ◌<◌, ◌≤◌, List, length, map, chars, slice_get, slice_set, IsSome, IfOk, OnOk, None};
ghost use Rattle.std.specs.List.{splice};
ghost use Rattle.std.specs.Option.{option_map};
ghost use Rattle.doc_model.specs.declared.block.Block.{roll-Block};
ghost use Rattle.doc_model.specs.declared.block.Block.TheOpen.{Block-F};
ghost use Rattle.doc_model.specs.declared.refusal.Limit.TheVariants as limit;
ghost use Rattle.edit_model.specs.Edit.{edited, first_refusal, live_paragraph, item_count, with_items};
ghost use Rattle.doc_model.specs.Limits.{measure};
ghost use Rattle.doc_model.specs.Parts.{items_of};
ghost use Rattle.doc_model.specs.Plain.{IsPlain, plain_item, plain_paragraph};
ghost use Rattle.edit_ops.specs.PlainOps.{IsPlainOp, RefusesChange};

use crate::items::replace_range;
use doc_model::{Block, Document, EditOp, Limit, List, Name, Par, ParId, Refusal};
use sqlite_items::{Items, at};
use std::alloc::{AllocError, Global};
use std::mem;

const MOST_ITEMS_OF_PARAGRAPH: usize = 32768;

const MOST_ITEMS: usize = 4194304;

/// A document under edit.
#[derive(Drop)]
pub struct Draft {
    /// What the edits so far made.
    pub document: Document,
    /// How many items its paragraphs have together.
    pub items: usize,
}

impl Draft {
    /// A copy of a plain document to edit.
    pub fn of(document: &Document) -> Result<Draft, AllocError>
        requires { IsPlain document.now }
        ensures same { IfOk result (λ draft. draft.document ≡ document.now) }
        ensures counted { IfOk result (λ draft. draft.items ≡ measure draft.document limit.Items) }
    {
        Ok(Draft {
            document: document.copy()?,
            items: item_total(document),
        })
    }

    /// Why an operation is refused, if it is.
    pub fn refusal(&self, op: &EditOp) -> Option<Refusal>
        requires plain { IsPlain self.now.document }
        requires counted { self.now.items ≡ measure self.now.document limit.Items }
        requires plain_op { IsPlainOp op.now }
        ensures { (next : ℕ) → result ≡ first_refusal (record { document = self.now.document; next = next }) op.now }
    {
        match op {
            EditOp::InsertText { par, at, text } => {
                self.change_refusal(*par, *at, *at, char_count(text.get()))
            }
            EditOp::DeleteRange { par, from, to } => self.change_refusal(*par, *from, *to, 0),
            _ => unreachable!(),
        }
    }

    /// Makes an operation that isn't refused. After want of memory the draft is of no more use.
    pub fn make(&mut self, alloc: Global, op: &EditOp) -> Result<(), AllocError>
        requires plain { IsPlain self.old.document }
        requires counted { self.old.items ≡ measure self.old.document limit.Items }
        requires plain_op { IsPlainOp op.now }
        requires allowed { (next : ℕ) → first_refusal (record { document = self.old.document; next = next }) op.now ≡ None }
        ensures made { OnOk result ((next : ℕ) → edited (record { document = self.old.document; next = next }) op.now ≡ record { document = self.new.document; next = next }) }
        ensures plain { OnOk result (IsPlain self.new.document) }
        ensures counted { OnOk result (self.new.items ≡ measure self.new.document limit.Items) }
    {
        match op {
            EditOp::InsertText { par, at, text } => self.change(alloc, *par, *at, *at, text.get()),
            EditOp::DeleteRange { par, from, to } => self.change(alloc, *par, *from, *to, ""),
            _ => unreachable!(),
        }
    }

    // Why the items of a paragraph from `from` to `to` can't give way to so many characters, if they can't.
    fn change_refusal(&self, par: ParId, from: u32, to: u32, added: usize) -> Option<Refusal>
        requires plain { IsPlain self.now.document }
        requires counted { self.now.items ≡ measure self.now.document limit.Items }
        ensures { RefusesChange self.now.document par from to added result }
    {
        let Some(count) = live_items(&self.document, par) else {
            return Some(Refusal::NoPar(par));
        };
        if from.max(to) as usize > count {
            return Some(Refusal::PastEnd(par, count as u32));
        }
        if from > to {
            return Some(Refusal::BadRange(from, to));
        }
        let removed = (to - from) as usize;
        if added > MOST_ITEMS_OF_PARAGRAPH - (count - removed) {
            return Some(Refusal::Limit(Limit::ItemsOfParagraph, MOST_ITEMS_OF_PARAGRAPH as u32));
        }
        if added > MOST_ITEMS - (self.items - removed) {
            return Some(Refusal::Limit(Limit::Items, MOST_ITEMS as u32));
        }
        None
    }

    // Puts the characters of a text in the place of the items of a paragraph from `from` to `to`.
    fn change(
        &mut self,
        alloc: Global,
        par: ParId,
        from: u32,
        to: u32,
        text: &str,
    ) -> Result<(), AllocError>
        requires plain { IsPlain self.old.document }
        requires counted { self.old.items ≡ measure self.old.document limit.Items }
        requires live { IsSome (live_paragraph self.old.document par) }
        requires order { from ≤ to }
        requires within { to ≤ item_count self.old.document par }
        requires few { length (chars text.now) ≤ MOST_ITEMS }
        ensures changed { OnOk result (self.new.document
            ≡ with_items par.0 (λ items. splice items from to (map plain_item (chars text.now))) self.old.document) }
        ensures counted { OnOk result (self.new.items + (to - from) ≡ self.old.items + length (chars text.now)) }
    {
        let place = par.0 as usize - 1;
        let mut blocks = mem::replace(&mut self.document.body, List::new(alloc)).into_vec();
        let old = swap_block(&mut blocks, place, stand_in(alloc));
        let new = changed_block(alloc, old, from as usize, to as usize, text)?;
        let _stand_in = swap_block(&mut blocks, place, new);
        self.document.body = List::from_list(blocks);
        self.items = self.items - (to - from) as usize + char_count(text);
        Ok(())
    }
}

// How many items a paragraph has, if it is there. The paragraph of number 1 is the first block.
fn live_items(document: &Document, par: ParId) -> Option<usize>
    requires { IsPlain document.now }
    ensures { result ≡ option_map (λ live. length (items_of live)) (live_paragraph document.now par) }
{
    if par.0 == 0 {
        return None;
    }
    let block = at(document.body.get(), par.0 as usize - 1)?;
    Some(block_items(block))
}

// How many items the paragraphs have together.
fn item_total(document: &Document) -> usize
    requires { IsPlain document.now }
    ensures { result ≡ measure document.now limit.Items }
{
    let mut total = 0;
    'summing: for block in document.body.get() {
        total += block_items(block);
    }
    total
}

// How many items a paragraph has. A plain document has no section.
fn block_items(block: &Block) -> usize
    ensures { (number : ℕ) (text : List ℕ) → block.now ≡ roll-Block (Block-F.Par (plain_paragraph number text)) → result ≡ length text }
{
    match block {
        Block::Par(par) => par.items.len(),
        Block::Section(_) => 0,
    }
}

// Puts a block in the place of another, which it gives back.
fn swap_block(blocks: &mut Vec<Block>, place: usize, block: Block) -> Block
    requires { place < length blocks.old.items }
    ensures taken { slice_get blocks.old.items place ≡ Some result }
    ensures put { blocks.new.items ≡ slice_set blocks.old.items place block }
{
    mem::replace(&mut blocks[place], block)
}

// A block that stands for another while that one is changed. It takes no memory.
fn stand_in(alloc: Global) -> Block {
    Block::Par(Par {
        id: ParId(0),
        style: Name::none(alloc),
        level: 0,
        list: None,
        items: Items::new(alloc),
    })
}

// The paragraph with the characters of a text in the place of its items from `from` to `to`. A plain document has
// no section.
fn changed_block(
    alloc: Global,
    block: Block,
    from: usize,
    to: usize,
    text: &str,
) -> Result<Block, AllocError>
    requires order { from ≤ to }
    requires plain { (number : ℕ) × (old : List ℕ) × (to ≤ length old) × (block ≡ roll-Block (Block-F.Par (plain_paragraph number old))) }
    ensures { IfOk result (λ new. (number : ℕ) (old : List ℕ) → block ≡ roll-Block (Block-F.Par (plain_paragraph number old))
        → new ≡ roll-Block (Block-F.Par (plain_paragraph number (splice old from to (chars text.now))))) }
{
    match block {
        Block::Par(par) => {
            let Par {
                id,
                style,
                level,
                list,
                mut items,
            } = par;
            replace_range(alloc, &mut items, from, to, text)?;
            Ok(Block::Par(Par {
                id,
                style,
                level,
                list,
                items,
            }))
        }
        Block::Section(section) => Ok(Block::Section(section)),
    }
}

fn char_count(text: &str) -> usize
    ensures { result ≡ length (chars text.now) }
{
    text.chars().count()
}
