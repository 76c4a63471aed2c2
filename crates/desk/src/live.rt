//! The paragraph of a number.

ghost use Rattle.std.specs.Prelude.{◌≡◌};
ghost use Rattle.std.specs.Option.{option_copied};
ghost use Rattle.edit_model.specs.Edit.{live_paragraph};
ghost use Rattle.doc_model.specs.Plain.{IsPlain};

use doc_model::{Block, Document, Par, ParId};
use sqlite_items::at;

/// The paragraph with this number, if it is there. In a plain document the one of number 1 is the first block, and no
/// block is a section.
pub(crate) fn live_paragraph(document: &Document, par: ParId) -> Option<&Par>
    requires { IsPlain document.now }
    ensures { option_copied result ≡ live_paragraph document.now par }
{
    if par.0 == 0 {
        return None;
    }
    match at(document.body.get(), par.0 as usize - 1)? {
        Block::Par(live) => Some(live),
        Block::Section(_) => None,
    }
}
