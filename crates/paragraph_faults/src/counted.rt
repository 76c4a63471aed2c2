//! Paragraphs with the numbers of their items.
ghost use Rattle.std.specs.Prelude.{◌≡◌, ◌++◌, ◌∷◌, [], map, IfOk, OnOk};
ghost use Rattle.std.specs.List.{flat_map};
ghost use Rattle.doc_model.specs.Reading.{block_paragraphs, with_notes};
ghost use Rattle.paragraph_faults.specs.Counts.{counted_of, count_of, block_counts, what_counts, note_counts};
ghost use Rattle.doc_model.specs.declared.paragraph.What.{out-What};
ghost use Rattle.doc_model.specs.declared.paragraph.Note.{out-Note};

use doc_model::{Block, Item, Par, What};
use std::alloc::{AllocError, Global};

/// How many items a paragraph has, with its place.
#[derive(Debug, Clone, Copy)]
pub struct Counted {
    /// Its place, which a draft has as its number.
    pub place: u32,
    /// How many items it has.
    pub items: usize,
}

/// The paragraphs of a body in reading order, those of notes too.
#[tactic(auto, using(crate::proofs::CountLemmas::all_counts))]
pub fn counted_paragraphs(alloc: Global, body: &[Block]) -> Result<Vec<Counted>, AllocError>
    ensures { IfOk result (λ counted. map counted_of counted.items ≡ map count_of (flat_map with_notes (flat_map block_paragraphs body.now))) }
{
    let mut counted = Vec::new(alloc);
    push_blocks(&mut counted, body)?;
    Ok(counted)
}

// Adds the paragraphs of blocks.
#[cycle(push_block)]
fn push_blocks(counted: &mut Vec<Counted>, blocks: &[Block]) -> Result<(), AllocError>
    ensures { OnOk result (map counted_of counted.new.items ≡ map counted_of counted.old.items ++ flat_map block_counts blocks.now) }
{
    for block in blocks {
        push_block(counted, block)?;
    }
    Ok(())
}

// Adds the paragraphs of a block.
#[cycle(push_block)]
#[tactic(auto, using(crate::proofs::CountLemmas::par_block_counts))]
fn push_block(counted: &mut Vec<Counted>, block: &Block) -> Result<(), AllocError>
    ensures { OnOk result (map counted_of counted.new.items ≡ map counted_of counted.old.items ++ block_counts block.now) }
{
    match block {
        Block::Par(par) => push_par(counted, par),
        Block::Section(section) => push_blocks(counted, section.blocks.as_slice()),
    }
}

// Adds a paragraph with those of its notes.
#[tactic(auto, using(crate::proofs::CountLemmas::par_counts))]
fn push_par(counted: &mut Vec<Counted>, par: &Par) -> Result<(), AllocError>
    ensures { OnOk result (map counted_of counted.new.items ≡ map counted_of counted.old.items ++ map count_of (with_notes par.now)) }
{
    push_one(counted, par)?;
    push_notes(counted, par.items.as_slice())
}

// Adds a paragraph alone.
fn push_one(counted: &mut Vec<Counted>, par: &Par) -> Result<(), AllocError>
    ensures { OnOk result (map counted_of counted.new.items ≡ map counted_of counted.old.items ++ count_of par.now ∷ []) }
{
    counted.push(Counted {
        place: par.id.0,
        items: par.items.len(),
    })?;
    Ok(())
}

// Adds the paragraphs of notes.
fn push_notes(counted: &mut Vec<Counted>, items: &[Item]) -> Result<(), AllocError>
    ensures { OnOk result (map counted_of counted.new.items ≡ map counted_of counted.old.items ++ flat_map note_counts items.now) }
{
    'items: for item in items {
        push_note(counted, &item.what)?;
    }
    Ok(())
}

// Adds the paragraphs of a note, if this is one.
fn push_note(counted: &mut Vec<Counted>, what: &What) -> Result<(), AllocError>
    ensures { OnOk result (map counted_of counted.new.items ≡ map counted_of counted.old.items ++ what_counts (out-What what.now)) }
{
    match what {
        What::Note(note) => push_pars(counted, note.get().pars.as_slice()),
        _ => Ok(()),
    }
}

// Adds paragraphs.
fn push_pars(counted: &mut Vec<Counted>, pars: &[Par]) -> Result<(), AllocError>
    ensures { OnOk result (map counted_of counted.new.items ≡ map counted_of counted.old.items ++ map count_of pars.now) }
{
    'pars: for par in pars {
        push_one(counted, par)?;
    }
    Ok(())
}
