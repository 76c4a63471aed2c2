//! The tags of spans.

ghost use Rattle.std.specs.Prelude.{◌≡◌, ◌++◌, chars, string_bytes, OnOk};
ghost use Rattle.content_write.specs.Rest.{span_start, span_end, starts, ends, tags};

use doc_model::Name;
use element_text::{push_end, push_name, push_tag_end};
use std::alloc::AllocError;
use value_write::push_text;

/// Adds the tag that begins a span.
fn push_span_start(out: &mut String, name: &Name) -> Result<(), AllocError>
    ensures { OnOk result (chars (string_bytes out.new) ≡ chars (string_bytes out.old) ++ span_start name.now) }
{
    push_name(out, "text:span")?;
    push_text(out, "text:style-name", name.get())?;
    push_tag_end(out)
}

/// Adds the tag that ends a span.
fn push_span_end(out: &mut String) -> Result<(), AllocError>
    ensures { OnOk result (chars (string_bytes out.new) ≡ chars (string_bytes out.old) ++ span_end) }
{
    push_end(out, "text:span")
}

/// Adds the tags that begin spans, outermost first.
fn push_starts(out: &mut String, names: &[Name]) -> Result<(), AllocError>
    ensures { OnOk result (chars (string_bytes out.new) ≡ chars (string_bytes out.old) ++ starts names.now) }
{
    let mut left = names;
    'names: while let [name, inner @ ..] = left {
        push_span_start(out, name)?;
        left = inner;
    }
    Ok(())
}

/// Adds the tags that end spans.
fn push_ends(out: &mut String, names: &[Name]) -> Result<(), AllocError>
    ensures { OnOk result (chars (string_bytes out.new) ≡ chars (string_bytes out.old) ++ ends names.now) }
{
    let mut left = names;
    'names: while let [_, inner @ ..] = left {
        push_span_end(out)?;
        left = inner;
    }
    Ok(())
}

/// Adds the tags between what stands in the spans around this place and what stands in others.
pub fn push_tags(out: &mut String, around: &[Name], spans: &[Name]) -> Result<(), AllocError>
    ensures { OnOk result (chars (string_bytes out.new) ≡ chars (string_bytes out.old) ++ tags around.now spans.now) }
{
    let mut ending = around;
    let mut beginning = spans;
    'shared: loop {
        let [name, inner @ ..] = ending else {
            return push_starts(out, beginning);
        };
        let [other, others @ ..] = beginning else {
            return push_ends(out, ending);
        };
        if !name.is_same(other) {
            push_ends(out, ending)?;
            return push_starts(out, beginning);
        }
        ending = inner;
        beginning = others;
    }
}
