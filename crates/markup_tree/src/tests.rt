//! What the rules say of small documents. Expected answers come from the rules of XML 1.0 and of the crate's places.

mod table;

use super::*;
use std::alloc::{AllocError, Global};
use std::test::Fail;
use table::{BYTES, TEXTS, WHOLE};

/// An element as `name@place[attribute=value](nodes)`.
#[tactic(auto, using(markup_nodes::proofs::SizeLemmas::smaller))]
fn show(out: &mut String, elem: &Elem) -> Result<(), AllocError> {
    out.push_str(elem.name.get())?;
    out.push('@')?;
    let place = elem.place.to_string(*out.allocator())?;
    out.push_str(&place)?;
    for attr in elem.attrs.get() {
        out.push('[')?;
        out.push_str(attr.name.get())?;
        out.push('=')?;
        out.push_str(attr.value.get())?;
        out.push(']')?;
    }
    out.push('(')?;
    out.push_str(elem.nodes.first())?;
    for turn in elem.nodes.turns() {
        show(out, &turn.elem)?;
        out.push_str(turn.after.get())?;
    }
    out.push(')')
}

/// The word of an offence's kind.
fn word(kind: OffenceKind) -> &'static str {
    match kind {
        OffenceKind::NotUtf8 => "utf8",
        OffenceKind::Form => "form",
        OffenceKind::Doctype => "doctype",
        OffenceKind::Deep => "deep",
    }
}

/// What reading bytes comes to, as a text.
fn told(alloc: Global, bytes: &[u8]) -> Result<String, AllocError> {
    if bytes.len() > 1 << 28 {
        return String::from_str(alloc, "too long");
    }
    match read_tree(alloc, bytes) {
        Err(ReadFault::NoMemory) => String::from_str(alloc, "no memory"),
        Err(ReadFault::Offence(offence)) => {
            let mut out = String::from_str(alloc, word(offence.kind))?;
            out.push(' ')?;
            out.push_str(&offence.place.to_string(alloc)?)?;
            Ok(out)
        }
        Ok(tree) => {
            let mut out = String::new(alloc);
            show(&mut out, &tree.root)?;
            Ok(out)
        }
    }
}

/// Whether reading bytes comes to this.
fn comes_to(alloc: Global, bytes: &[u8], wanted: &str) -> Result<bool, AllocError> {
    let answer = told(alloc, bytes)?;
    Ok(answer.as_str() == wanted)
}

/// Whether a beginning of a document is refused at its end.
fn is_refused_at_its_end(alloc: Global, front: &[u8]) -> Result<bool, AllocError> {
    let mut wanted = String::from_str(alloc, "form ")?;
    wanted.push_str(&front.len().to_string(alloc)?)?;
    comes_to(alloc, front, &wanted)
}

/// Whether all texts and bytes of the tables come to what stands there.
fn come_to_the_tables(alloc: Global) -> Result<bool, AllocError> {
    for (text, wanted) in &TEXTS {
        if !comes_to(alloc, text.as_bytes(), wanted)? {
            return Ok(false);
        }
    }
    for (bytes, wanted) in &BYTES {
        if !comes_to(alloc, bytes, wanted)? {
            return Ok(false);
        }
    }
    Ok(true)
}

#[test]
fn documents_are_read_or_have_their_first_offence(rt: HostRuntime) -> Result<(), Fail> {
    assert!(rt; come_to_the_tables(rt.alloc())?);
    let whole = WHOLE.as_bytes();
    for end in 0..whole.len() {
        assert!(rt; is_refused_at_its_end(rt.alloc(), &whole[..end])?, "{end}");
    }
    Ok(())
}

/// A text so many times.
fn times(alloc: Global, text: &str, count: u32) -> Result<String, AllocError> {
    let mut out = String::new(alloc);
    for _ in 0..count {
        out.push_str(text)?;
    }
    Ok(out)
}

/// An element with 1,200 attributes and one that holds a text, and the same text in it.
fn holding(alloc: Global, text: &str) -> Result<String, AllocError> {
    let mut out = String::from_str(alloc, "<a")?;
    out.push_str(&times(alloc, " b='c'", 1_200)?)?;
    out.push_str(" d=\"")?;
    out.push_str(&escape_value(alloc, text)?)?;
    out.push_str("\">")?;
    out.push_str(&escape_text(alloc, text)?)?;
    out.push_str("</a>")?;
    Ok(out)
}

/// Whether an element is the one that holds a text.
fn holds(elem: &Elem, text: &str) -> bool {
    let attrs = elem.attrs.get();
    match attrs.last() {
        None => false,
        Some(last) => {
            attrs.len() == 1_201 && last.value.get() == text && elem.nodes.first() == text
        }
    }
}

/// Whether a document of more than 1 MiB is read as what was written. In it 300,000 characters stand in a value and in the
/// text.
fn is_large_read_back(alloc: Global) -> Result<bool, AllocError> {
    let text = times(alloc, "\"&é", 100_000)?;
    let document = holding(alloc, &text)?;
    if document.len() < 1 << 20 || document.len() > 1 << 28 {
        return Ok(false);
    }
    match read_tree(alloc, document.as_bytes()) {
        Err(_) => Ok(false),
        Ok(tree) => Ok(holds(&tree.root, &text)),
    }
}

#[test]
fn what_is_escaped_is_read_back_at_any_length(rt: HostRuntime) -> Result<(), Fail> {
    let value = escape_value(rt.alloc(), "a<b>&\"'\t\n\r]]>é")?;
    assert!(rt; value.as_str() == "a&lt;b&gt;&amp;&quot;'&#9;&#10;&#13;]]&gt;é");
    let characters = escape_text(rt.alloc(), "a<b>&\"'\t\n\r]]>é")?;
    assert!(rt; characters.as_str() == "a&lt;b&gt;&amp;\"'\t\n\r]]&gt;é");
    assert!(rt; is_large_read_back(rt.alloc())?);
    Ok(())
}
