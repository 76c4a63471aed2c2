//! One field of each kind, as OpenDocument 1.3 part 3 has them.

use crate::kinds::{
    push_bookmark_reference, push_chapter, push_note_reference, push_page_count, push_page_number,
    push_sequence, push_sequence_reference, push_variable_get, push_variable_set,
};
use doc_model::{ChapterShow, Format, NoteClass, PageAdjust, RefForm, Select, SeqForm};
use std::alloc::{AllocError, Global};

/// The text of the fields.
const FIELDS: &str =
    "<text:sequence text:name=\"a&amp;b\" text:ref-name=\"r\" style:num-format=\"i\"/><text:sequence text:name=\"a\" style:num-format=\"\"/><text:variable-set text:name=\"v\">1 &lt; 2</text:variable-set><text:variable-set text:name=\"v\"/><text:variable-get text:name=\"v\"/><text:chapter text:display=\"plain-number-and-name\" text:outline-level=\"10\"/><text:page-number text:select-page=\"next\" text:page-adjust=\"-9999\" style:num-format=\"1\"/><text:page-count style:num-format=\"A\"/><text:bookmark-ref text:reference-format=\"direction\"/><text:sequence-ref text:ref-name=\"r\" text:reference-format=\"category-and-value\"/><text:note-ref text:ref-name=\"n\" text:reference-format=\"text\" text:note-class=\"endnote\"/>";

/// Whether the fields make the text.
fn are_written(alloc: Global) -> Result<bool, AllocError> {
    let Some(adjust) = PageAdjust::new(-9999) else {
        return Ok(false);
    };
    let mut out = String::new(alloc);
    push_sequence(&mut out, "a&b", "r", Format::LowerRoman)?;
    push_sequence(&mut out, "a", "", Format::Empty)?;
    push_variable_set(&mut out, "v", "1 < 2")?;
    push_variable_set(&mut out, "v", "")?;
    push_variable_get(&mut out, "v")?;
    push_chapter(&mut out, ChapterShow::PlainNumberAndName, 10)?;
    push_page_number(&mut out, Select::Next, adjust, Format::Digits)?;
    push_page_count(&mut out, Format::UpperLetter)?;
    push_bookmark_reference(&mut out, "", RefForm::Direction)?;
    push_sequence_reference(&mut out, "r", SeqForm::CategoryAndValue)?;
    push_note_reference(&mut out, "n", NoteClass::Endnote, RefForm::Text)?;
    Ok(out.as_str() == FIELDS)
}

#[test]
fn each_kind_of_field_is_written(rt: HostRuntime) -> Result<(), AllocError> {
    assert!(rt; are_written(rt.alloc())?);
    Ok(())
}
