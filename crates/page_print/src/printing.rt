//! Pages as they are printed.

ghost use Rattle.std.specs.Prelude.{◌≡◌, ◌++◌, codes, decimal, IfOk, OnOk};
ghost use Rattle.std.specs.List.{flat_map};
ghost use Rattle.std.specs.Str.{encode_utf8_all};
ghost use Rattle.page_print.specs.Printed.{page_bytes};

use doc_model::{Blob, Page, Txt};
use itoa::Buffer;
use std::alloc::{AllocError, Global};

/// A page of so many, as it is printed: a line with its index, how many pages there are and its number, and its rows, each
/// with a line feed.
pub fn print_page(alloc: Global, page: &Page, count: u32) -> Result<Blob, AllocError>
    ensures { IfOk result (λ bytes. bytes ≡ page_bytes page.now count) }
{
    let mut out = Vec::new(alloc);
    push_word(&mut out, b"page ", page.index)?;
    push_word(&mut out, b" of ", count)?;
    push_word(&mut out, b" number ", page.number)?;
    push_bytes(&mut out, b"\n")?;
    push_rows(&mut out, page.rows.get())?;
    Ok(Blob::from_list(out))
}

/// Adds a word and a number in digits.
fn push_word(out: &mut Vec<u8>, word: &[u8], number: u32) -> Result<(), AllocError>
    ensures { OnOk result (out.new.items ≡ out.old.items ++ (word.now ++ decimal number)) }
{
    let mut buffer = Buffer::new();
    push_bytes(out, word)?;
    push_bytes(out, buffer.format(number).as_bytes())
}

fn push_rows(out: &mut Vec<u8>, rows: &[Txt]) -> Result<(), AllocError>
    ensures { OnOk result (out.new.items ≡ out.old.items ++ flat_map (λ row. encode_utf8_all row ++ codes "\n") rows.now) }
{
    for row in rows {
        push_row(out, row)?;
    }
    Ok(())
}

fn push_row(out: &mut Vec<u8>, row: &Txt) -> Result<(), AllocError>
    ensures { OnOk result (out.new.items ≡ out.old.items ++ (encode_utf8_all row.now ++ codes "\n")) }
{
    push_txt(out, row)?;
    push_bytes(out, b"\n")
}

fn push_txt(out: &mut Vec<u8>, text: &Txt) -> Result<(), AllocError>
    ensures { OnOk result (out.new.items ≡ out.old.items ++ encode_utf8_all text.now) }
{
    push_bytes(out, text.get().as_bytes())
}

fn push_bytes(out: &mut Vec<u8>, bytes: &[u8]) -> Result<(), AllocError>
    ensures { OnOk result (out.new.items ≡ out.old.items ++ bytes.now) }
{
    out.extend_from_slice(bytes)
}
