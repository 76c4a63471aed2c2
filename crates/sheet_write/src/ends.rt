//! The beginning and the end of a part, which is written where it holds something.

ghost use Rattle.std.specs.Prelude.{◌≡◌, ◌++◌, chars, string_bytes, OnOk};
ghost use Rattle.sheet_write.specs.Parts.{part_start, part_end};

use element_text::{push_end, push_name, push_tag_end};
use std::alloc::AllocError;

/// Adds the tag that begins a part, where the part holds something.
pub fn push_part_start(out: &mut String, name: &str, holds: bool) -> Result<(), AllocError>
    ensures { OnOk result (chars (string_bytes out.new) ≡ chars (string_bytes out.old) ++ part_start (chars name.now) holds) }
{
    if !holds {
        return Ok(());
    }
    push_name(out, name)?;
    push_tag_end(out)
}

/// Adds the tag that ends a part, where the part holds something.
pub fn push_part_end(out: &mut String, name: &str, holds: bool) -> Result<(), AllocError>
    ensures { OnOk result (chars (string_bytes out.new) ≡ chars (string_bytes out.old) ++ part_end (chars name.now) holds) }
{
    if !holds {
        return Ok(());
    }
    push_end(out, name)
}
