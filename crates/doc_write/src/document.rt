//! The whole document.

ghost use Rattle.std.specs.Prelude.{◌≡◌, ◌++◌, chars, string_bytes, IsUtf8, IfOk, OnOk};
ghost use Rattle.doc_write.specs.Root.{document_parts, body_element};
ghost use Rattle.tree_text.specs.Writing.{child_text, content_text, document_text};
ghost use Rattle.written_model.specs.Written.{written};

use crate::root::{push_document_end, push_document_start};
use doc_model::{Blob, Document};
use element_text::{push_end, push_name, push_tag_end};
use head_write::push_masters_part;
use sheet_write::{push_automatic_part, push_styles_part};
use std::alloc::{AllocError, Global};
use text_write::push_text_element;

/// Adds the parts that hold styles, page layouts and master pages.
pub fn push_parts(out: &mut String, doc: &Document) -> Result<(), AllocError>
    ensures { OnOk result (chars (string_bytes out.new) ≡ chars (string_bytes out.old) ++ content_text (document_parts doc.now)) }
{
    push_styles_part(
        out,
        &doc.defaults,
        doc.styles.get(),
        &doc.outline,
        doc.lists.get(),
    )?;
    push_automatic_part(out, doc.styles.get(), doc.layouts.get())?;
    push_masters_part(out, doc.masters.get())
}

/// Adds the body with the text in it.
pub fn push_body(out: &mut String, doc: &Document) -> Result<(), AllocError>
    ensures { OnOk result (chars (string_bytes out.new) ≡ chars (string_bytes out.old) ++ child_text (body_element doc.now)) }
{
    push_name(out, "office:body")?;
    push_tag_end(out)?;
    push_text_element(out, doc)?;
    push_end(out, "office:body")
}

/// Adds a document.
pub fn push_document(out: &mut String, doc: &Document) -> Result<(), AllocError>
    ensures { OnOk result (chars (string_bytes out.new) ≡ chars (string_bytes out.old) ++ document_text (written doc.now)) }
{
    push_document_start(out, doc.global)?;
    push_parts(out, doc)?;
    push_body(out, doc)?;
    push_document_end(out)
}

/// The bytes of a document, in one buffer that grows.
pub fn save(alloc: Global, doc: &Document) -> Result<Blob, AllocError>
    ensures utf8 { IfOk result (λ bytes. IsUtf8 bytes) }
    ensures text { IfOk result (λ bytes. chars bytes ≡ document_text (written doc.now)) }
{
    let mut out = String::new(alloc);
    push_document(&mut out, doc)?;
    Ok(Blob::from_list(out.into_bytes()))
}
