//! What stands at the front of small texts, by the productions of XML 1.0.

use crate::{Fault, Tag, declaration, end_tag, instruction, start_tag};
use markup_parts::Stop;
use std::alloc::Global;

// Texts behind a `<` that are no tag.
const NO_TAGS: &[(&str, Stop)] = &[
    ("a b='1'c='2'>", Stop::Broken),
    ("t:a b = '1\t2' c=\"<\"/>", Stop::Broken),
    ("a b>", Stop::Broken),
    ("a b=1>", Stop::Broken),
    ("a /b>", Stop::Broken),
    ("a b='&c;'>", Stop::Refused),
    ("a b='&#0;", Stop::Refused),
    ("a b='", Stop::Cut),
    ("a ", Stop::Cut),
    ("a/", Stop::Cut),
];

// Texts behind a `</`.
const END_TAGS: &[(&str, Result<(&str, &str), Stop>)] = &[
    ("a>b", Ok(("a", "b"))),
    ("a \n>", Ok(("a", ""))),
    (" a>", Err(Stop::Broken)),
    ("a b>", Err(Stop::Broken)),
    ("a ", Err(Stop::Cut)),
];

// Texts behind a `<?`, as an instruction and as one at the start of a document.
const INSTRUCTIONS: &[(&str, Result<&str, Stop>, Result<&str, Stop>)] = &[
    ("a b?>c", Ok("c"), Ok("c")),
    ("a?>", Ok(""), Ok("")),
    ("xml \u{1}?>c", Err(Stop::Broken), Ok("c")),
    ("XmL ?>", Err(Stop::Broken), Err(Stop::Broken)),
    ("xml-a ?>", Ok(""), Ok("")),
    ("a \u{1}?>", Err(Stop::Broken), Err(Stop::Broken)),
    ("a b?", Err(Stop::Cut), Err(Stop::Cut)),
    ("?>", Err(Stop::Broken), Err(Stop::Broken)),
];

// The attributes of a tag.
const ATTRS: &[(&str, &str)] = &[("b", "1 2\t\""), ("c", "<' "), ("b", "")];

fn has_attrs(tag: &Tag) -> bool {
    if tag.attrs.get().len() != ATTRS.len() {
        return false;
    }
    for (attr, (name, value)) in tag.attrs.get().iter().zip(ATTRS) {
        if attr.name.get() != *name || attr.value.get() != *value {
            return false;
        }
    }
    true
}

fn has_tags(alloc: Global) -> bool {
    for (text, stop) in NO_TAGS {
        if start_tag(alloc, text).err() != Some(Fault::Stopped(*stop)) {
            return false;
        }
    }
    let text = "t:a b = '1\t2&#9;\"' c=\"&lt;'\r\n\" b=''/>d";
    match start_tag(alloc, text) {
        Err(_) => false,
        Ok((tag, rest)) => tag.name.get() == "t:a" && has_attrs(&tag) && tag.closed && rest == "d",
    }
}

fn has_end_tags() -> bool {
    for (text, found) in END_TAGS {
        if end_tag(text) != *found {
            return false;
        }
    }
    true
}

fn has_instructions() -> bool {
    for (text, told, first) in INSTRUCTIONS {
        if instruction(text) != *told || declaration(text) != *first {
            return false;
        }
    }
    true
}

#[test]
fn a_text_begins_with_a_tag_or_an_instruction_or_not(rt: HostRuntime) {
    assert!(rt; has_tags(rt.alloc()));
    assert!(rt; has_end_tags());
    assert!(rt; has_instructions());
}
