//! Pieces of a small document, by the productions of XML 1.0.

use crate::{
    Attribute, push_attribute, push_declaration, push_empty, push_end, push_run, push_start,
};
use std::alloc::{AllocError, Global};

/// The text of a document in which each call has a part.
const WHOLE: &str =
    "<?xml version=\"1.0\" encoding=\"UTF-8\"?>\n<a b=\"&quot;&amp;&lt;&gt;&#9;&#10;&#13;é'\" c=\"\">x&lt;&gt;&amp;]]&gt;\"é<d e=\"f\"/></a> g=\"h\"";

/// The attributes of the element.
const ATTRIBUTES: &[Attribute<'static>] = &[
    Attribute {
        name: "b",
        value: "\"&<>\t\n\ré'",
    },
    Attribute {
        name: "c",
        value: "",
    },
];

/// Whether the pieces make the text.
fn is_whole(alloc: Global) -> Result<bool, AllocError> {
    let mut out = String::new(alloc);
    push_declaration(&mut out)?;
    push_start(&mut out, "a", ATTRIBUTES)?;
    push_run(&mut out, "x<>&]]>\"é")?;
    push_empty(
        &mut out,
        "d",
        &[Attribute {
            name: "e",
            value: "f",
        }],
    )?;
    push_end(&mut out, "a")?;
    push_attribute(&mut out, "g", "h")?;
    Ok(out.as_str() == WHOLE)
}

#[test]
fn pieces_are_written_with_their_escapes(rt: HostRuntime) -> Result<(), AllocError> {
    assert!(rt; is_whole(rt.alloc())?);
    Ok(())
}
