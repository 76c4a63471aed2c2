//! What ends a tag and what ends an element.

ghost use Rattle.std.specs.Prelude.{◌≡◌, ◌++◌, chars, string_bytes, OnOk};
ghost use Rattle.paragraph_write.specs.Around.{tag_close, element_close};

use element_text::{push_empty_end, push_end, push_tag_end};
use std::alloc::AllocError;

/// Adds what ends the tag of an element that holds something, or nothing.
pub fn push_tag_close(out: &mut String, holds: bool) -> Result<(), AllocError>
    ensures { OnOk result (chars (string_bytes out.new) ≡ chars (string_bytes out.old) ++ tag_close holds) }
{
    if holds {
        return push_tag_end(out);
    }
    push_empty_end(out)
}

/// Adds what ends an element that holds something, or nothing.
pub fn push_close(out: &mut String, name: &str, holds: bool) -> Result<(), AllocError>
    ensures { OnOk result (chars (string_bytes out.new) ≡ chars (string_bytes out.old) ++ element_close (chars name.now) holds) }
{
    if holds {
        return push_end(out, name);
    }
    Ok(())
}
