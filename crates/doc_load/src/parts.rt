//! What is read of the style parts and of the part of masters.
ghost use Rattle.std.specs.Prelude.{IfOk};
ghost use Rattle.load_model.specs.declared.element.Element.{Element};
ghost use Rattle.sheet_names.specs.Sheets.{IsSheet};
ghost use Rattle.doc_load.specs.Parts.{PartsAre, LimitsAre};

use head_read::{ReadMasters, read_masters};
use load_model::Element;
use loop_faults::loop_places;
use sheet_names::Sheet;
use sheet_styles::{SheetValues, read_sheet};
use std::alloc::{AllocError, Global};
use tree_faults::{layout_beyond, list_beyond, master_beyond, style_beyond};

/// The places of the first elements of the parts with which there are too many.
#[derive(Debug, Clone, Copy)]
pub(crate) struct PartLimits {
    pub(crate) styles: Option<u32>,
    pub(crate) lists: Option<u32>,
    pub(crate) layouts: Option<u32>,
    pub(crate) masters: Option<u32>,
}

/// What is read of the parts.
#[derive(Drop)]
pub(crate) struct ReadParts {
    /// How many style parts are read.
    pub(crate) count: usize,
    /// What the style parts say.
    pub(crate) values: SheetValues,
    /// The masters.
    pub(crate) masters: ReadMasters,
    /// The places of the styles that are their own ancestors.
    pub(crate) loops: Vec<u32>,
    /// Where limits are passed.
    pub(crate) limits: PartLimits,
}

/// What is read of the parts of a root.
pub(crate) fn read_parts(
    alloc: Global,
    root: &Element,
    sheet: &Sheet<'_>,
) -> Result<ReadParts, AllocError>
    ensures { IfOk result (λ parts. IsSheet sheet.now root.now → PartsAre parts root.now) }
{
    let values = read_sheet(alloc, sheet)?;
    let masters = read_masters(alloc, root, sheet)?;
    let loops = loop_places(alloc, sheet, values.styles.get())?;
    Ok(ReadParts {
        count: sheet.parts.as_slice().len(),
        values,
        masters,
        loops,
        limits: part_limits(sheet),
    })
}

// Where the parts pass limits.
fn part_limits(sheet: &Sheet<'_>) -> PartLimits
    ensures { (root : Element) → IsSheet sheet.now root → LimitsAre result root }
{
    PartLimits {
        styles: style_beyond(sheet),
        lists: list_beyond(sheet),
        layouts: layout_beyond(sheet),
        masters: master_beyond(sheet),
    }
}
