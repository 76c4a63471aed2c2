//! The first offence of a root.
ghost use Rattle.std.specs.Prelude.{◌≡◌, ◌++◌, ◌∷◌, [], List, map, option_to_list, IfOk, OnOk};
ghost use Rattle.doc_model.specs.declared.refusal.Limit.TheVariants as limit;
ghost use Rattle.load_model.specs.declared.element.Element.{Element};
ghost use Rattle.load_model.specs.declared.offence.TreeOffence.{TreeOffence};
ghost use Rattle.load_model.specs.Offences as model;
ghost use Rattle.load_model.specs.Offences.{counted_heads, counted_paragraphs, least, places_beyond};
ghost use Rattle.paragraph_faults.specs.Counts.{counted_of};
ghost use Rattle.doc_load.specs.Outcomes.{all_offences, limit_offences, root_offences};
ghost use Rattle.doc_load.specs.Parts.{AreMet, LimitsAre, PartsAre, TextIs};

use crate::parts::{PartLimits, ReadParts};
use crate::text::{MetFaults, ReadText};
use doc_model::Limit;
use first_faults::FirstFault;
use load_model::{Element, TreeOffence, TreeOffenceKind};
use paragraph_faults::{Counted, counted_paragraphs, first_too_many, paragraph_beyond, too_long};
use std::alloc::{AllocError, Global};
use tree_faults::{misplaced_texts, wrong_mimetype, wrong_root};

/// The first offence of a root of whose parts and text this is read, where there are offences before its own.
pub(crate) fn first_offence(
    alloc: Global,
    first: FirstFault,
    root: &Element,
    parts: &ReadParts,
    text: &ReadText,
) -> Result<Option<TreeOffence>, AllocError>
    requires parts { PartsAre parts.now root.now }
    requires text { TextIs text.now root.now }
    ensures { IfOk result (λ told. (before : List TreeOffence) → first ≡ least before → told ≡ least (all_offences before root.now)) }
{
    let mut first = first;
    add_root(alloc, &mut first, root)?;
    first.add_all(TreeOffenceKind::StyleLoop, parts.loops.as_slice());
    add_limits(alloc, &mut first, root, parts, text)?;
    first.add_all(TreeOffenceKind::Table, text.faults.tables.as_slice());
    Ok(first.get())
}

// Adds the offences of the root and of its text.
fn add_root(alloc: Global, first: &mut FirstFault, root: &Element) -> Result<(), AllocError>
    ensures { OnOk result ((before : List TreeOffence) → first.old ≡ least before → first.new ≡ least (root_offences before root.now)) }
{
    let texts = misplaced_texts(alloc, root)?;
    first.add_at(TreeOffenceKind::Root, wrong_root(root));
    first.add_at(TreeOffenceKind::Mime, wrong_mimetype(root));
    first.add_all(TreeOffenceKind::NoText, texts.as_slice());
    Ok(())
}

// Adds the offences of limits.
fn add_limits(
    alloc: Global,
    first: &mut FirstFault,
    root: &Element,
    parts: &ReadParts,
    text: &ReadText,
) -> Result<(), AllocError>
    requires parts { PartsAre parts.now root.now }
    requires text { TextIs text.now root.now }
    ensures { OnOk result ((before : List TreeOffence) → first.old ≡ least before → first.new ≡ least (before ++ limit_offences model.limits root.now)) }
{
    let counted = counted_paragraphs(alloc, text.body.get())?;
    add_paragraphs(
        alloc,
        first,
        counted.as_slice(),
        parts.masters.too_long.as_slice(),
    )?;
    add_sections(first, &text.faults);
    add_parts(first, parts.limits);
    add_limit(first, Limit::Declarations, text.declarations.beyond);
    Ok(())
}

// Adds the first place where a limit is passed, if it is.
fn add_limit(first: &mut FirstFault, limit: Limit, place: Option<u32>)
    ensures { (before : List TreeOffence) (root : Element) → option_to_list place ≡ places_beyond limit root → first.old ≡ least before → first.new ≡ least (before ++ limit_offences (limit ∷ []) root) }
{
    first.add_at(TreeOffenceKind::Limit(limit), place);
}

// Adds the places where a limit is passed.
fn add_limit_at(first: &mut FirstFault, limit: Limit, places: &[u32])
    ensures { (before : List TreeOffence) (root : Element) → places.now ≡ places_beyond limit root → first.old ≡ least before → first.new ≡ least (before ++ limit_offences (limit ∷ []) root) }
{
    first.add_all(TreeOffenceKind::Limit(limit), places);
}

// Adds the limits of paragraphs and of their items, where these paragraphs are counted and these of headers are too long.
fn add_paragraphs(
    alloc: Global,
    first: &mut FirstFault,
    counted: &[Counted],
    heads: &[u32],
) -> Result<(), AllocError>
    ensures { OnOk result ((before : List TreeOffence) (root : Element) → map counted_of counted.now ≡ counted_paragraphs root → heads.now ≡ model.too_long (counted_heads root) → first.old ≡ least before → first.new ≡ least (before ++ limit_offences (limit.Paragraphs ∷ limit.ItemsOfParagraph ∷ limit.Items ∷ []) root)) }
{
    let mut long = too_long(alloc, counted)?;
    long.extend_from_slice(heads)?;
    add_limit(first, Limit::Paragraphs, paragraph_beyond(counted));
    add_limit_at(first, Limit::ItemsOfParagraph, long.as_slice());
    add_limit(first, Limit::Items, first_too_many(counted));
    Ok(())
}

// Adds the limits of sections.
fn add_sections(first: &mut FirstFault, faults: &MetFaults)
    ensures { (before : List TreeOffence) (root : Element) → AreMet faults.now root → first.old ≡ least before → first.new ≡ least (before ++ limit_offences (limit.Sections ∷ limit.SectionDepth ∷ []) root) }
{
    add_limit(first, Limit::Sections, faults.section);
    add_limit_at(first, Limit::SectionDepth, faults.deep.as_slice());
}

// Adds the limits of the style parts and of masters.
fn add_parts(first: &mut FirstFault, limits: PartLimits)
    ensures { (before : List TreeOffence) (root : Element) → LimitsAre limits root → first.old ≡ least before → first.new ≡ least (before ++ limit_offences (limit.Styles ∷ limit.ListStyles ∷ limit.Layouts ∷ limit.Masters ∷ []) root) }
{
    add_limit(first, Limit::Styles, limits.styles);
    add_limit(first, Limit::ListStyles, limits.lists);
    add_limit(first, Limit::Layouts, limits.layouts);
    add_limit(first, Limit::Masters, limits.masters);
}
