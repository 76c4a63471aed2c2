//! Pages as they are printed.

ghost use Rattle.std.specs.Prelude.{◌≡◌, ◌++◌, length, take, codes, decimal, OnOk, List, ℕ};
ghost use Rattle.std.specs.List.{flat_map};
ghost use Rattle.std.specs.Str.{encode_utf8_all};
ghost use Rattle.desk_model.specs.Replies.{page_words};

use crate::printing::{push_bytes, push_word_number};
use doc_model::{Page, Txt};
use std::alloc::AllocError;

/// A page of so many, with its rows.
pub(crate) fn push_page(out: &mut Vec<u8>, page: &Page, count: u32) -> Result<(), AllocError>
    ensures ok { OnOk result (out.new.items ≡ out.old.items ++ page_words page.now count) }
    ensures front { take (length out.old.items) out.new.items ≡ out.old.items }
{
    push_word_number(out, b"page ", page.index)?;
    push_word_number(out, b" of ", count)?;
    push_word_number(out, b" number ", page.number)?;
    push_bytes(out, b"\n")?;
    push_rows(out, page.rows.get())
}

fn push_rows(out: &mut Vec<u8>, rows: &[Txt]) -> Result<(), AllocError>
    ensures ok { OnOk result (out.new.items ≡ out.old.items ++ flat_map (λ row. encode_utf8_all row ++ codes "\n") rows.now) }
    ensures front { take (length out.old.items) out.new.items ≡ out.old.items }
{
    for row in rows {
        push_row(out, row)?;
    }
    Ok(())
}

fn push_row(out: &mut Vec<u8>, row: &Txt) -> Result<(), AllocError>
    ensures ok { OnOk result (out.new.items ≡ out.old.items ++ (encode_utf8_all row.now ++ codes "\n")) }
    ensures front { take (length out.old.items) out.new.items ≡ out.old.items }
{
    push_txt(out, row)?;
    push_bytes(out, b"\n")
}

fn push_txt(out: &mut Vec<u8>, text: &Txt) -> Result<(), AllocError>
    ensures ok { OnOk result (out.new.items ≡ out.old.items ++ encode_utf8_all text.now) }
    ensures front { take (length out.old.items) out.new.items ≡ out.old.items }
{
    push_bytes(out, text.get().as_bytes())
}
