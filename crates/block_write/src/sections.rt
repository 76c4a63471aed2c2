//! Sections.

ghost use Rattle.std.specs.Prelude.{◌≡◌, ◌++◌, chars, string_bytes, OnOk};
ghost use Rattle.std.specs.List.{flat_map};
ghost use Rattle.tree_text.specs.Writing.{attr_text, content_text};
ghost use Rattle.written_model.specs.Elements.{where_true};
ghost use Rattle.written_model.specs.Blocks.{source_element};
ghost use Rattle.block_write.specs.Sections.{section_end, tag_attributes, tag_start};

use doc_model::{Name, SectionSource};
use element_text::{push_empty_end, push_name};
use paragraph_write::{push_close, push_tag_close};
use std::alloc::AllocError;
use value_write::{push_text, push_unless_empty};

/// What a section says of itself, before its blocks. The fields are those of `Section`.
#[derive(Debug, Clone, Copy)]
pub struct SectionTag<'a> {
    /// 'text:name'.
    pub name: &'a Name,
    /// The section style ('text:style-name'), or the empty name.
    pub style: &'a Name,
    /// Whether its paragraphs are kept from edits ('text:protected').
    pub protected: bool,
    /// Whether its paragraphs are left out of the pages ('text:display' none).
    pub hidden: bool,
    /// Where its blocks come from, if from another file.
    pub source: &'a Option<SectionSource>,
}

/// Adds an attribute where something holds.
fn push_where(out: &mut String, name: &str, value: &str, holds: bool) -> Result<(), AllocError>
    ensures { OnOk result (chars (string_bytes out.new) ≡ chars (string_bytes out.old) ++ flat_map attr_text (where_true (chars name.now) (chars value.now) holds)) }
{
    if holds {
        return push_text(out, name, value);
    }
    Ok(())
}

/// Adds the attributes of a section.
fn push_attributes(out: &mut String, tag: SectionTag<'_>) -> Result<(), AllocError>
    ensures { OnOk result (chars (string_bytes out.new) ≡ chars (string_bytes out.old) ++ flat_map attr_text (tag_attributes tag.entry)) }
{
    push_unless_empty(out, "text:style-name", tag.style.get())?;
    push_unless_empty(out, "text:name", tag.name.get())?;
    push_where(out, "text:protected", "true", tag.protected)?;
    push_where(out, "text:display", "none", tag.hidden)
}

/// Adds where the blocks of a section come from.
fn push_some_source(out: &mut String, source: &SectionSource) -> Result<(), AllocError>
    ensures { OnOk result (chars (string_bytes out.new) ≡ chars (string_bytes out.old) ++ content_text (source_element (Some source.now))) }
{
    push_name(out, "text:section-source")?;
    push_unless_empty(out, "xlink:href", source.href.get())?;
    push_unless_empty(out, "text:section-name", source.section.get())?;
    push_empty_end(out)
}

/// Adds it if it is another file.
fn push_source(out: &mut String, source: &Option<SectionSource>) -> Result<(), AllocError>
    ensures { OnOk result (chars (string_bytes out.new) ≡ chars (string_bytes out.old) ++ content_text (source_element source.now)) }
{
    match source {
        None => Ok(()),
        Some(source) => push_some_source(out, source),
    }
}

/// Adds what stands before the blocks of a section, which holds something, a source or blocks, or nothing.
pub fn push_section_start(
    out: &mut String,
    tag: SectionTag<'_>,
    holds: bool,
) -> Result<(), AllocError>
    ensures { OnOk result (chars (string_bytes out.new) ≡ chars (string_bytes out.old) ++ tag_start tag.entry holds) }
{
    push_name(out, "text:section")?;
    push_attributes(out, tag)?;
    push_tag_close(out, holds)?;
    push_source(out, tag.source)
}

/// Adds what stands behind them.
pub fn push_section_end(out: &mut String, holds: bool) -> Result<(), AllocError>
    ensures { OnOk result (chars (string_bytes out.new) ≡ chars (string_bytes out.old) ++ section_end holds) }
{
    push_close(out, "text:section", holds)
}
