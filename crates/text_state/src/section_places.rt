//! The sections of a body with their first paragraphs.

ghost use Rattle.std.specs.Prelude.{◌≡◌, ◌++◌, take, option_to_list, OnOk};
ghost use Rattle.std.specs.List.{flat_map};
ghost use Rattle.name_index.specs.Scan.{in_block};
ghost use Rattle.text_state.specs.NamePlaces.{first_inside, first_place, places_inside};

use crate::places::push_name;
use doc_model::{Block, Name, ParId, Section};
use std::alloc::AllocError;

/// Appends the names of the sections of a body, each with its first paragraph, in reading order.
pub(crate) fn push_sections(
    places: &mut Vec<(Name, ParId)>,
    body: &[Block],
) -> Result<(), AllocError>
    ensures { OnOk result (places.new.items ≡ places.old.items ++ flat_map (λ block. (in_block block).sections) body.now) }
{
    for block in body {
        push_those_of(places, block)?;
    }
    Ok(())
}

// Appends those of a block.
#[cycle(push_those_of)]
#[tactic(auto, using(crate::proofs::Gathered::par_sections, crate::proofs::Gathered::section_sections))]
fn push_those_of(places: &mut Vec<(Name, ParId)>, block: &Block) -> Result<(), AllocError>
    ensures { OnOk result (places.new.items ≡ places.old.items ++ (in_block block.now).sections) }
{
    match block {
        Block::Par(_) => Ok(()),
        Block::Section(section) => push_section(places, section),
    }
}

// Appends a section and those within it.
#[cycle(push_those_of)]
fn push_section(places: &mut Vec<(Name, ParId)>, section: &Section) -> Result<(), AllocError>
    ensures { OnOk result (places.new.items ≡ places.old.items ++ places_inside section.now) }
{
    push_first(places, section)?;
    for block in section.blocks.as_slice() {
        push_those_of(places, block)?;
    }
    Ok(())
}

// Appends a section, if it has a paragraph.
fn push_first(places: &mut Vec<(Name, ParId)>, section: &Section) -> Result<(), AllocError>
    ensures { OnOk result (places.new.items ≡ places.old.items ++ first_place section.now) }
{
    match first_of_section(section) {
        Some(par) => push_name(places, par, &section.name),
        None => Ok(()),
    }
}

// The first paragraph of a section.
#[cycle(first_of)]
fn first_of_section(section: &Section) -> Option<ParId>
    ensures { option_to_list result ≡ first_inside section.now }
{
    for block in section.blocks.as_slice() {
        if let Some(par) = first_of(block) {
            return Some(par);
        }
    }
    None
}

// The first paragraph of a block.
#[cycle(first_of)]
#[tactic(auto, using(crate::proofs::Gathered::par_numbers, crate::proofs::Gathered::section_numbers))]
fn first_of(block: &Block) -> Option<ParId>
    ensures { option_to_list result ≡ take 1 (in_block block.now).numbers }
{
    match block {
        Block::Par(par) => Some(par.id),
        Block::Section(section) => first_of_section(section),
    }
}
