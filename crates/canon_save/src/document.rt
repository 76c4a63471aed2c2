//! The document round its paragraphs.

ghost use Rattle.std.specs.Prelude.{◌≡◌, ◌++◌, string_bytes, IfOk, OnOk};
ghost use Rattle.std.specs.List.{AllByRecursion as Each, flat_map};
ghost use Rattle.spelling_model.specs.Spelling.{canonical, head, opening, tail, block_bytes, IsWritten, IsWrittenBlock};

use crate::paragraph::push_paragraph;
use doc_model::{Blob, Block, Document};
use spelling_model::{BODY, ROOT, ROOT_END, TAIL};
use std::alloc::{AllocError, Global};

/// The canonical bytes of a document, as UTF-8. It takes time in proportion to the document, and one buffer that grows.
///
/// It writes documents of nothing but paragraphs of characters; what else a document may have has no spelling yet.
pub fn save(alloc: Global, doc: &Document) -> Result<Blob, AllocError>
    requires { IsWritten doc.now }
    ensures { IfOk result (λ bytes. bytes ≡ canonical doc.now) }
{
    let mut out = String::new(alloc);
    push_head(&mut out)?;
    push_blocks(&mut out, doc.body.get())?;
    push_tail(&mut out)?;
    Ok(Blob::from_list(out.into_bytes()))
}

/// What stands in front of the first paragraph.
#[tactic(auto, unfolding(spelling_model::specs::Spelling::head, spelling_model::specs::Spelling::opening))]
fn push_head(out: &mut String) -> Result<(), AllocError>
    ensures { OnOk result (string_bytes out.new ≡ string_bytes out.old ++ (head ++ opening)) }
{
    out.push_str(ROOT)?;
    out.push_str(ROOT_END)?;
    out.push_str(BODY)
}

/// What stands behind the last paragraph.
#[tactic(auto, unfolding(spelling_model::specs::Spelling::tail))]
fn push_tail(out: &mut String) -> Result<(), AllocError>
    ensures { OnOk result (string_bytes out.new ≡ string_bytes out.old ++ tail) }
{
    out.push_str(TAIL)
}

/// The blocks of the body.
fn push_blocks(out: &mut String, blocks: &[Block]) -> Result<(), AllocError>
    requires { Each IsWrittenBlock blocks.now }
    ensures { OnOk result (string_bytes out.new ≡ string_bytes out.old ++ flat_map block_bytes blocks.now) }
{
    for block in blocks {
        push_block(out, block)?;
    }
    Ok(())
}

fn push_block(out: &mut String, block: &Block) -> Result<(), AllocError>
    requires { IsWrittenBlock block.now }
    ensures { OnOk result (string_bytes out.new ≡ string_bytes out.old ++ block_bytes block.now) }
{
    match block {
        Block::Par(par) => push_paragraph(out, par),
        Block::Section(_) => unreachable!(),
    }
}
