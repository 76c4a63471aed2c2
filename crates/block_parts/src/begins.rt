//! What the first paragraphs of lists and items begin.
ghost use Rattle.std.specs.Prelude.{◌≡◌, ◌<◌, vec_len, remove};
ghost use Rattle.std.specs.Option.{option_map};
ghost use Rattle.load_model.specs.Blocks.{with_place};
ghost use Rattle.block_parts.specs.Begins.{begun, changed_at, changed_block, is_section};

use doc_model::{Block, ListPos, Par};

/// What a paragraph in a list begins.
#[derive(Debug, Clone, Copy, PartialEq, Eq)]
pub enum Begins {
    /// An item.
    Item,
    /// Counting.
    Counting,
}

/// Lets the paragraph at a place begin something, if there is one. A section, which no list has in front, is taken out.
pub fn begin_at(blocks: &mut Vec<Block>, at: usize, what: Begins)
    ensures { blocks.new.items ≡ changed_at (begun what) at blocks.old.items }
{
    if at >= blocks.len() {
        return;
    }
    if is_section(&blocks[at]) {
        let _section = blocks.remove(at);
        return;
    }
    begin(&mut blocks[at], what)
}

// Whether a block is a section.
fn is_section(block: &Block) -> bool
    ensures { result ≡ is_section block.now }
{
    matches!(block, Block::Section(_))
}

// Lets a block begin something, if it is a paragraph.
fn begin(block: &mut Block, what: Begins)
    ensures { block.new ≡ changed_block (begun what) block.old }
{
    match block {
        Block::Par(par) => begin_par(par, what),
        Block::Section(_) => {}
    }
}

// Lets a paragraph begin something, if it is in a list.
fn begin_par(par: &mut Par, what: Begins)
    ensures { par.new ≡ with_place (begun what) par.old }
{
    begin_place(&mut par.list, what)
}

fn begin_place(list: &mut Option<ListPos>, what: Begins)
    ensures { list.new ≡ option_map (begun what) list.old }
{
    match list {
        Some(place) => mark(place, what),
        None => {}
    }
}

fn mark(place: &mut ListPos, what: Begins)
    ensures { place.new ≡ begun what place.old }
{
    match what {
        Begins::Item => place.item = true,
        Begins::Counting => place.fresh = true,
    }
}
