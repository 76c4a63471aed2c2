//! The document of a file.
ghost use Rattle.std.specs.Prelude.{◌≡◌, ◌≤◌, length, IfOk};
ghost use Rattle.doc_model.specs.Alike.{in_document};
ghost use Rattle.doc_model.specs.Reading.{paragraphs};
ghost use Rattle.load_model.specs.Blocks.{with_place};
ghost use Rattle.load_model.specs.declared.element.Element.{Element};
ghost use Rattle.load_model.specs.Loaded.{at_most_ten, draft_of, loaded};
ghost use Rattle.doc_load.specs.Outcomes.{IsOrdered};
ghost use Rattle.doc_load.specs.Parts.{PartsAre, TextIs};

use crate::parts::ReadParts;
use crate::root::is_global;
use crate::text::ReadText;
use doc_model::{Document, NoteStart};
use doc_numbers::number_paragraphs;
use load_model::Element;
use std::alloc::{AllocError, Global};

/// The document of a root, in which places are the numbers of paragraphs.
pub(crate) fn draft(root: &Element, parts: ReadParts, text: ReadText) -> Document
    ensures { PartsAre parts root.now → TextIs text root.now → result ≡ in_document (with_place at_most_ten) (draft_of root.now) }
{
    let values = parts.values;
    let declarations = text.declarations;
    Document {
        global: is_global(root),
        defaults: values.defaults,
        styles: values.styles,
        lists: values.lists,
        outline: values.outline,
        layouts: values.layouts,
        masters: parts.masters.masters,
        variables: declarations.variables,
        sequences: declarations.sequences,
        counting: NoteStart::Document,
        body: text.body,
    }
}

/// The document of a draft.
pub(crate) fn number(alloc: Global, draft: Document) -> Result<Document, AllocError>
    requires { length (paragraphs draft) ≤ 65536 }
    ensures { IfOk result (λ doc. (root : Element) → draft ≡ in_document (with_place at_most_ten) (draft_of root) → IsOrdered root → doc ≡ loaded root) }
{
    number_paragraphs(alloc, draft)
}
