//! The stated properties of paragraphs and text.

ghost use Rattle.std.specs.Prelude.{◌≡◌, ◌++◌, chars, string_bytes, OnOk};
ghost use Rattle.std.specs.List.{flat_map};
ghost use Rattle.tree_text.specs.Writing.{attr_text};
ghost use Rattle.written_model.specs.Styles.{paragraph_attributes, text_attributes};

use crate::stated::{
    push_align_stated, push_break_stated, push_display_stated, push_keep_stated,
    push_length_stated, push_number_stated, push_page_start_stated,
};
use doc_model::Props;
use std::alloc::AllocError;

/// Adds the stated properties of a paragraph as attributes.
pub fn push_paragraph_attributes(out: &mut String, props: &Props) -> Result<(), AllocError>
    ensures { OnOk result (chars (string_bytes out.new) ≡ chars (string_bytes out.old) ++ flat_map attr_text (paragraph_attributes props.now)) }
{
    push_length_stated(out, "fo:margin-left", props.margin_left)?;
    push_length_stated(out, "fo:margin-right", props.margin_right)?;
    push_length_stated(out, "fo:margin-top", props.margin_top)?;
    push_length_stated(out, "fo:margin-bottom", props.margin_bottom)?;
    push_length_stated(out, "fo:text-indent", props.indent)?;
    push_align_stated(out, "fo:text-align", props.align)?;
    push_break_stated(out, "fo:break-before", props.break_before)?;
    push_break_stated(out, "fo:break-after", props.break_after)?;
    push_keep_stated(out, "fo:keep-with-next", props.keep_next)?;
    push_keep_stated(out, "fo:keep-together", props.keep_together)?;
    push_number_stated(out, "fo:widows", props.widows)?;
    push_number_stated(out, "fo:orphans", props.orphans)?;
    push_page_start_stated(out, "style:page-number", props.page_number)
}

/// Adds the stated properties of text as attributes.
pub fn push_text_attributes(out: &mut String, props: &Props) -> Result<(), AllocError>
    ensures { OnOk result (chars (string_bytes out.new) ≡ chars (string_bytes out.old) ++ flat_map attr_text (text_attributes props.now)) }
{
    push_display_stated(out, "text:display", props.display)
}
