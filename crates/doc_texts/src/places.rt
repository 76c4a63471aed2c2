//! The paragraphs of a body, lent.

ghost use Rattle.std.specs.Prelude.{◌≡◌, ◌++◌, ◌||◌, map, [], ◌∷◌, IfOk, OnOk};
ghost use Rattle.std.specs.List.{flat_map};
ghost use Rattle.doc_model.specs.declared.block.Section.{out-Section};
ghost use Rattle.doc_model.specs.Reading.{block_paragraphs};
ghost use Rattle.format_model.specs.Standing.{body_pars_in, within_section};
ghost use Rattle.doc_texts.specs.Places.{body_par};

use doc_model::{Block, Par, Section};
use std::alloc::{AllocError, Global};

/// A paragraph of the body.
#[derive(Debug, Clone, Copy)]
pub struct BodyPlace<'a> {
    /// The paragraph.
    pub par: &'a Par,
    /// Whether a section around it is hidden.
    pub in_hidden_section: bool,
}

/// The paragraphs of a body in reading order, without those of notes.
#[tactic(auto, using(crate::proofs::Blocks::within_none))]
pub fn body_places<'a>(alloc: Global, body: &'a [Block]) -> Result<Vec<BodyPlace<'a>>, AllocError>
    ensures placed { IfOk result (λ places. map body_par places.items ≡ flat_map body_pars_in body.now) }
    ensures read { IfOk result (λ places. map (λ place. place.par.now) places.items ≡ flat_map block_paragraphs body.now) }
{
    let mut places = Vec::new(alloc);
    for block in body {
        push_block(&mut places, false, block)?;
    }
    Ok(places)
}

/// Adds the paragraphs of a block.
#[cycle(push_block)]
#[tactic(auto, using(crate::proofs::Blocks::par_placed, crate::proofs::Blocks::par_read))]
fn push_block<'a>(
    places: &mut Vec<BodyPlace<'a>>,
    in_hidden_section: bool,
    block: &'a Block,
) -> Result<(), AllocError>
    ensures placed { OnOk result (map body_par places.new.items ≡ map body_par places.old.items ++ map (within_section in_hidden_section) (body_pars_in block.now)) }
    ensures read { OnOk result (map (λ place. place.par.now) places.new.items ≡ map (λ place. place.par.now) places.old.items ++ block_paragraphs block.now) }
{
    match block {
        Block::Par(par) => push_par(places, in_hidden_section, par),
        Block::Section(section) => push_section(places, in_hidden_section, section),
    }
}

/// Adds a paragraph.
fn push_par<'a>(
    places: &mut Vec<BodyPlace<'a>>,
    in_hidden_section: bool,
    par: &'a Par,
) -> Result<(), AllocError>
    ensures placed { OnOk result (map body_par places.new.items ≡ map body_par places.old.items ++ record { par = par.now; in_hidden_section = in_hidden_section } ∷ []) }
    ensures read { OnOk result (map (λ place. place.par.now) places.new.items ≡ map (λ place. place.par.now) places.old.items ++ par.now ∷ []) }
{
    places.push(BodyPlace {
        par,
        in_hidden_section,
    })?;
    Ok(())
}

/// Adds those of a section.
#[cycle(push_block)]
#[tactic(auto, using(crate::proofs::Blocks::within_more))]
fn push_section<'a>(
    places: &mut Vec<BodyPlace<'a>>,
    in_hidden_section: bool,
    section: &'a Section,
) -> Result<(), AllocError>
    ensures placed { OnOk result (map body_par places.new.items ≡ map body_par places.old.items ++ map (within_section (in_hidden_section || (out-Section section.now).hidden)) (flat_map body_pars_in (out-Section section.now).blocks)) }
    ensures read { OnOk result (map (λ place. place.par.now) places.new.items ≡ map (λ place. place.par.now) places.old.items ++ flat_map block_paragraphs (out-Section section.now).blocks) }
{
    let hidden = is_either(in_hidden_section, section.hidden);
    for block in section.blocks.as_slice() {
        push_block(places, hidden, block)?;
    }
    Ok(())
}

/// Whether one of two holds.
fn is_either(one: bool, other: bool) -> bool
    ensures { result ≡ (one || other) }
{
    one || other
}
