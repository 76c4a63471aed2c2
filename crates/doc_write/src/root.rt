//! What stands round the parts and the body of a document.

ghost use Rattle.std.specs.Prelude.{◌≡◌, ◌++◌, chars, string_bytes, codes, OnOk};
ghost use Rattle.std.specs.List.{flat_map};
ghost use Rattle.doc_write.specs.Root.{document_start, document_end, root_start};
ghost use Rattle.tree_text.specs.Writing.{attr_text};
ghost use Rattle.written_model.specs.Written as tree;

use element_text::{push_declaration, push_end, push_name, push_tag_end};
use std::alloc::AllocError;
use value_write::push_text;

/// The media type of a document.
fn mimetype(global: bool) -> &'static str
    ensures { chars result.now ≡ tree.mimetype global }
{
    if global {
        return "application/vnd.oasis.opendocument.text-master";
    }
    "application/vnd.oasis.opendocument.text"
}

/// Adds the declarations of the namespaces.
fn push_namespaces(out: &mut String) -> Result<(), AllocError>
    ensures { OnOk result (chars (string_bytes out.new) ≡ chars (string_bytes out.old) ++ flat_map attr_text tree.namespaces) }
{
    push_text(
        out,
        "xmlns:office",
        "urn:oasis:names:tc:opendocument:xmlns:office:1.0",
    )?;
    push_text(
        out,
        "xmlns:style",
        "urn:oasis:names:tc:opendocument:xmlns:style:1.0",
    )?;
    push_text(
        out,
        "xmlns:text",
        "urn:oasis:names:tc:opendocument:xmlns:text:1.0",
    )?;
    push_text(
        out,
        "xmlns:table",
        "urn:oasis:names:tc:opendocument:xmlns:table:1.0",
    )?;
    push_text(
        out,
        "xmlns:fo",
        "urn:oasis:names:tc:opendocument:xmlns:xsl-fo-compatible:1.0",
    )?;
    push_text(out, "xmlns:xlink", "http://www.w3.org/1999/xlink")
}

/// Adds the tag of the root, which always holds something.
fn push_root_start(out: &mut String, global: bool) -> Result<(), AllocError>
    ensures { OnOk result (chars (string_bytes out.new) ≡ chars (string_bytes out.old) ++ root_start global) }
{
    push_name(out, "office:document")?;
    push_namespaces(out)?;
    push_text(out, "office:version", "1.3")?;
    push_text(out, "office:mimetype", mimetype(global))?;
    push_tag_end(out)
}

/// Adds the end of a line.
fn push_line_end(out: &mut String) -> Result<(), AllocError>
    ensures { OnOk result (chars (string_bytes out.new) ≡ chars (string_bytes out.old) ++ codes "\n") }
{
    out.push_str("\n")
}

/// Adds what stands before the parts of a document: the declaration on its line, and the root's tag.
pub fn push_document_start(out: &mut String, global: bool) -> Result<(), AllocError>
    ensures { OnOk result (chars (string_bytes out.new) ≡ chars (string_bytes out.old) ++ document_start global) }
{
    push_declaration(out)?;
    push_root_start(out, global)
}

/// Adds what stands behind the body of a document: the root's end and the end of its line.
pub fn push_document_end(out: &mut String) -> Result<(), AllocError>
    ensures { OnOk result (chars (string_bytes out.new) ≡ chars (string_bytes out.old) ++ document_end) }
{
    push_end(out, "office:document")?;
    push_line_end(out)
}
