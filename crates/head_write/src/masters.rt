//! Master pages.

ghost use Rattle.std.specs.Prelude.{◌≡◌, ◌==◌, ◌||◌, ◌++◌, not, length, map, chars, string_bytes, codes, OnOk};
ghost use Rattle.std.specs.List.{flat_map};
ghost use Rattle.head_write.specs.Masters.{master_attributes, master_nodes};
ghost use Rattle.sheet_write.specs.Held.{held_text};
ghost use Rattle.tree_text.specs.Writing.{attr_text, child_text, content_text};
ghost use Rattle.written_model.specs.Elements.{part};
ghost use Rattle.written_model.specs.Styles.{head_paragraph, master_element};

use crate::paragraphs::push_head_paragraphs;
use doc_model::{HeadPar, Master};
use element_text::{push_empty_end, push_end, push_name, push_tag_end};
use sheet_write::{push_part_end, push_part_start};
use std::alloc::AllocError;
use value_write::{push_text, push_unless_empty};

/// Adds the attributes of a master page.
fn push_master_attributes(out: &mut String, master: &Master) -> Result<(), AllocError>
    ensures { OnOk result (chars (string_bytes out.new) ≡ chars (string_bytes out.old) ++ flat_map attr_text (master_attributes master.now)) }
{
    push_text(out, "style:name", master.name.get())?;
    push_unless_empty(out, "style:page-layout-name", master.layout.get())?;
    push_unless_empty(out, "style:next-style-name", master.next.get())
}

/// Adds a header or a footer, where it has a paragraph.
fn push_head(out: &mut String, name: &str, pars: &[HeadPar]) -> Result<(), AllocError>
    ensures { OnOk result (chars (string_bytes out.new) ≡ chars (string_bytes out.old) ++ content_text (part (chars name.now) (map head_paragraph pars.now))) }
{
    let holds = !pars.is_empty();
    push_part_start(out, name, holds)?;
    push_head_paragraphs(out, pars)?;
    push_part_end(out, name, holds)
}

/// Whether a master page has a header or a footer.
fn has_head(master: &Master) -> bool
    ensures { result ≡ (not (length master.now.header == 0) || not (length master.now.footer == 0)) }
{
    !master.header.get().is_empty() || !master.footer.get().is_empty()
}

/// Adds what stands behind the attributes of a master page.
fn push_held_heads(out: &mut String, master: &Master) -> Result<(), AllocError>
    ensures { OnOk result (chars (string_bytes out.new) ≡ chars (string_bytes out.old) ++ held_text (codes "style:master-page") (master_nodes master.now)) }
{
    if !has_head(master) {
        return push_empty_end(out);
    }
    push_tag_end(out)?;
    push_head(out, "style:header", master.header.get())?;
    push_head(out, "style:footer", master.footer.get())?;
    push_end(out, "style:master-page")
}

/// Adds a master page.
pub fn push_master(out: &mut String, master: &Master) -> Result<(), AllocError>
    ensures { OnOk result (chars (string_bytes out.new) ≡ chars (string_bytes out.old) ++ child_text (master_element master.now)) }
{
    push_name(out, "style:master-page")?;
    push_master_attributes(out, master)?;
    push_held_heads(out, master)
}

/// Adds master pages.
fn push_masters(out: &mut String, masters: &[Master]) -> Result<(), AllocError>
    ensures { OnOk result (chars (string_bytes out.new) ≡ chars (string_bytes out.old) ++ content_text (map master_element masters.now)) }
{
    let mut left = masters;
    'masters: while let [master, after @ ..] = left {
        push_master(out, master)?;
        left = after;
    }
    Ok(())
}

/// Adds the part of the master pages, where there is one.
pub fn push_masters_part(out: &mut String, masters: &[Master]) -> Result<(), AllocError>
    ensures { OnOk result (chars (string_bytes out.new) ≡ chars (string_bytes out.old) ++ content_text (part (codes "office:master-styles") (map master_element masters.now))) }
{
    let holds = !masters.is_empty();
    push_part_start(out, "office:master-styles", holds)?;
    push_masters(out, masters)?;
    push_part_end(out, "office:master-styles", holds)
}
