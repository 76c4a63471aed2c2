//! What is read of the text of a file.
ghost use Rattle.std.specs.Prelude.{◌≡◌, false, map, IfOk};
ghost use Rattle.load_model.specs.declared.element.Element.{Element};
ghost use Rattle.load_model.specs.Met as model;
ghost use Rattle.load_model.specs.Loaded.{draft_of, known_of, met_of, read_text};
ghost use Rattle.load_model.specs.Styles.{names_of};
ghost use Rattle.content_read.specs.Known.{IsKnown};
ghost use Rattle.kept_names.specs.Kept.{IsSame};
ghost use Rattle.met_read.specs.Read as met;
ghost use Rattle.met_read.specs.Read.{outlined};
ghost use Rattle.read_blocks.specs.Adds.{AreBlocks};
ghost use Rattle.sheet_names.specs.Known.{Knows};
ghost use Rattle.doc_load.specs.Outcomes.{IsOrdered};
ghost use Rattle.doc_load.specs.Parts.{AreMet, TextIs};

use crate::declarations::{Declarations, read_declarations};
use crate::left::text_left;
use crate::root::{text_in, text_place};
use content_read::Known;
use doc_model::{Block, List};
use element_parts::LeftOut;
use kept_names::{Kept, kept_of};
use load_model::Element;
use met_read::{Met, met_in};
use read_blocks::{ReadBlocks, or_empty};
use section_faults::{deep_sections, section_beyond};
use sheet_names::Names;
use std::alloc::{AllocError, Global};
use text_read::read_text;
use tree_faults::table_places;

/// Where what is met in a text passes limits, and where tables are.
#[derive(Drop)]
pub(crate) struct MetFaults {
    /// The first section with which there are too many.
    pub(crate) section: Option<u32>,
    /// Sections that stand in too many others.
    pub(crate) deep: Vec<u32>,
    /// Tables.
    pub(crate) tables: Vec<u32>,
}

/// What is read of the text of a file.
#[derive(Drop)]
pub(crate) struct ReadText {
    /// The blocks of the body.
    pub(crate) body: List<Block>,
    /// The declared names.
    pub(crate) declarations: Declarations,
    /// Faults of what is met.
    pub(crate) faults: MetFaults,
    /// What is left out in the text.
    pub(crate) left: LeftOut,
}

/// What is read of the text of a root, where these names can be referred to.
pub(crate) fn read_root_text(
    alloc: Global,
    root: &Element,
    names: &Names,
) -> Result<ReadText, AllocError>
    ensures { IfOk result (λ text. IsOrdered root.now → Knows names.now (names_of root.now) → TextIs text root.now) }
{
    let met = met_in_root(alloc, root)?;
    let things = met.as_slice();
    let kept = kept_of(alloc, things)?;
    let faults = met_faults(alloc, &kept, things)?;
    let read = blocks_in_root(alloc, Known { names, kept: &kept }, root)?;
    with_declarations(alloc, root, things, faults, read)
}

// What is met in the text of a root.
fn met_in_root(alloc: Global, root: &Element) -> Result<Vec<Met<'_>>, AllocError>
    ensures { IfOk result (λ things. map met.met_of things.items ≡ map outlined (met_of root.now)) }
{
    match text_in(root) {
        Some(text) => met_in(alloc, text),
        None => Ok(Vec::new(alloc)),
    }
}

// What is read where the blocks of the text of a root are.
fn blocks_in_root(alloc: Global, known: Known<'_>, root: &Element) -> Result<ReadBlocks, AllocError>
    ensures { IfOk result (λ read. IsKnown known.entry (known_of root.now) → AreBlocks false read (read_text root.now)) }
{
    match text_in(root) {
        Some(text) => read_text(alloc, known, text),
        None => Ok(ReadBlocks::new(alloc)),
    }
}

// Faults of what is met in the text of a root.
fn met_faults(alloc: Global, kept: &Kept, things: &[Met<'_>]) -> Result<MetFaults, AllocError>
    ensures { IfOk result (λ faults. (root : Element) → map met.met_of things.now ≡ map outlined (met_of root) → IsSame kept.now (model.kept_of (met_of root)) → IsOrdered root → AreMet faults root) }
{
    let deep = deep_sections(alloc, kept, things)?;
    let tables = table_places(alloc, things)?;
    Ok(MetFaults {
        section: section_beyond(kept, things),
        deep,
        tables,
    })
}

// What is read of the text of a root in which these are met and these blocks are read.
fn with_declarations(
    alloc: Global,
    root: &Element,
    things: &[Met<'_>],
    faults: MetFaults,
    read: ReadBlocks,
) -> Result<ReadText, AllocError>
    ensures { IfOk result (λ text. IsOrdered root.now → map met.met_of things.now ≡ map outlined (met_of root.now) → AreMet faults root.now → AreBlocks false read (read_text root.now) → TextIs text root.now) }
{
    let ReadBlocks {
        blocks,
        sources: _sources,
        declarations,
        left,
    } = read;
    let declarations = read_declarations(alloc, declarations.as_slice(), things)?;
    let body = or_empty(alloc, text_place(root), blocks)?;
    let left = text_left(root, left, declarations.left);
    Ok(ReadText {
        body: List::from_list(body),
        declarations,
        faults,
        left,
    })
}
