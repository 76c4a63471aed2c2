//! Tags and their attributes.

ghost use Rattle.std.specs.Prelude.{◌<◌, chars, length, IfOk, codes, string_bytes};
ghost use Rattle.markup_parts.specs.Constructs.{IsText};
ghost use Rattle.markup_parts.specs.Outcomes.{Reads, outcome};
ghost use Rattle.markup_tags.specs.Attempts.{ReadsUnlessMemory, attempt};
ghost use Rattle.markup_tags.specs.Tags.{IsQuote, IsOpening, IsEquals, IsAttribute, IsAttributeRest, IsTagRest, IsTag, IsEndTag};

use crate::fault::Fault;
use crate::values::value;
use markup_nodes::{Attr, Attrs, Word};
use markup_parts::{Class, Stop, first, is_nothing, name, run};
use std::alloc::Global;

/// A tag that begins an element.
#[derive(Debug, Drop)]
pub struct Tag {
    pub name: Word,
    pub attrs: Attrs,
    /// Whether it closes its element, too.
    pub closed: bool,
}

/// What an equals sign leads to: the quotation mark, and the text behind it.
fn equals(text: &str) -> Result<(char, &str), Stop>
    ensures read { Reads IsEquals (chars text.now) (outcome (λ found. found.0) (λ found. chars found.1.now) result) }
    ensures shorter { IfOk result (λ found. length found.1.now < length text.now) }
    ensures quote { IfOk result (λ found. IsQuote found.0) }
{
    let (_, rest) = run(text, Class::Space);
    let Some((c, right)) = first(rest) else {
        return Err(Stop::Cut);
    };
    if c == '=' {
        quote(right)
    } else {
        Err(Stop::Broken)
    }
}

/// A quotation mark behind white space, and the text behind it.
fn quote(text: &str) -> Result<(char, &str), Stop>
    ensures read { Reads IsOpening (chars text.now) (outcome (λ found. found.0) (λ found. chars found.1.now) result) }
    ensures shorter { IfOk result (λ found. length found.1.now < length text.now) }
    ensures quote { IfOk result (λ found. IsQuote found.0) }
{
    let (_, rest) = run(text, Class::Space);
    let Some((c, behind)) = first(rest) else {
        return Err(Stop::Cut);
    };
    if c == '"' {
        return Ok((c, behind));
    }
    if c == '\'' {
        return Ok((c, behind));
    }
    Err(Stop::Broken)
}

/// The attribute at the front, and the text behind it.
fn attribute(alloc: Global, text: &str) -> Result<(Attr, &str), Fault>
    ensures read { ReadsUnlessMemory IsAttribute (chars text.now) (attempt (λ found. found.0) (λ found. chars found.1.now) result) }
    ensures shorter { IfOk result (λ found. length found.1.now < length text.now) }
{
    let (name, rest) = name(text)?;
    let (value, rest) = attribute_rest(alloc, rest)?;
    let name = Word::from_text(String::from_str(alloc, name)?);
    let value = Word::from_text(value);
    Ok((Attr { name, value }, rest))
}

/// The value of an attribute from behind its name, and the text behind it.
fn attribute_rest(alloc: Global, text: &str) -> Result<(String, &str), Fault>
    ensures read { ReadsUnlessMemory IsAttributeRest (chars text.now) (attempt (λ found. chars (string_bytes found.0)) (λ found. chars found.1.now) result) }
    ensures shorter { IfOk result (λ found. length found.1.now < length text.now) }
{
    let (quote, rest) = equals(text)?;
    value(alloc, rest, quote)
}

/// What a tag has behind its name: its attributes, whether it closes its element, and the text behind the tag.
fn tag_rest(alloc: Global, text: &str) -> Result<(Attrs, bool, &str), Fault>
    ensures read { ReadsUnlessMemory IsTagRest (chars text.now) (attempt (λ found. (found.0, found.1)) (λ found. chars found.2.now) result) }
    ensures shorter { IfOk result (λ found. length found.2.now < length text.now) }
{
    let mut attrs = Vec::new(alloc);
    let mut rest = text;
    'attributes: loop {
        let (space, front) = run(rest, Class::Space);
        let Some((c, end)) = first(front) else {
            return Err(Fault::Stopped(Stop::Cut));
        };
        if c == '>' {
            return Ok((Attrs::from_vec(attrs), false, end));
        }
        if c == '/' {
            let behind = slash_end(end)?;
            return Ok((Attrs::from_vec(attrs), true, behind));
        }
        if is_nothing(space) {
            return Err(Fault::Stopped(Stop::Broken));
        }
        let (attr, behind) = match attribute(alloc, front) {
            Err(fault) => return Err(fault),
            Ok(found) => found,
        };
        attrs.push(attr)?;
        rest = behind;
    }
}

/// The text behind the `>` that ends a tag behind its `/`.
fn slash_end(text: &str) -> Result<&str, Stop>
    ensures read { Reads (IsText (codes ">")) (chars text.now) (outcome (λ _. tt) (λ rest. chars rest.now) result) }
    ensures shorter { IfOk result (λ rest. length rest.now < length text.now) }
{
    let Some((c, rest)) = first(text) else {
        return Err(Stop::Cut);
    };
    if c == '>' {
        Ok(rest)
    } else {
        Err(Stop::Broken)
    }
}

/// The tag behind its `<`, and the text behind it.
pub fn start_tag(alloc: Global, text: &str) -> Result<(Tag, &str), Fault>
    ensures read { ReadsUnlessMemory IsTag (chars text.now) (attempt (λ found. found.0) (λ found. chars found.1.now) result) }
    ensures shorter { IfOk result (λ found. length found.1.now < length text.now) }
{
    let (name, rest) = name(text)?;
    let (attrs, closed, rest) = match tag_rest(alloc, rest) {
        Err(fault) => return Err(fault),
        Ok(found) => found,
    };
    let name = Word::from_text(String::from_str(alloc, name)?);
    Ok((
        Tag {
            name,
            attrs,
            closed,
        },
        rest,
    ))
}

/// The name of the end tag behind its `</`, and the text behind the tag.
pub fn end_tag(text: &str) -> Result<(&str, &str), Stop>
    ensures read { Reads IsEndTag (chars text.now) (outcome (λ found. chars found.0.now) (λ found. chars found.1.now) result) }
    ensures shorter { IfOk result (λ found. length found.1.now < length text.now) }
{
    let (name, rest) = match name(text) {
        Err(stop) => return Err(stop),
        Ok(found) => found,
    };
    let (_, rest) = run(rest, Class::Space);
    let Some((c, behind)) = first(rest) else {
        return Err(Stop::Cut);
    };
    if c == '>' {
        Ok((name, behind))
    } else {
        Err(Stop::Broken)
    }
}
