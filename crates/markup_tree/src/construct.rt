//! The next construct of a document.

ghost use Rattle.std.specs.Prelude.{◌≢◌, ◌==◌, [], ◌++◌, ◌<◌, ◌≤◌, chars, length, IfOk, codes};
ghost use Rattle.markup_parts.specs.Constructs.{IsText, IsComment};
ghost use Rattle.markup_parts.specs.Outcomes.{Reads, outcome};
ghost use Rattle.markup_parts.specs.Runs.{NotBegins};
ghost use Rattle.markup_tags.specs.Attempts.{ReadsUnlessMemory, attempt};
ghost use Rattle.markup_tags.specs.Tags.{IsTag};
ghost use Rattle.markup_tree.specs.Pieces.{said, silent, Begins, Declares, Behind, ◌or◌, IsBlank, IsBracket, IsPlain, IsSkipped, IsSpecial, IsElementTag, IsMarkup, IsConstruct};

use crate::part::Part;
use markup_parts::{Stop, cdata, comment, expect, first, is_space, literal, reference};
use markup_tags::{Fault, Tag, declaration, end_tag, instruction, start_tag};
use std::alloc::Global;

/// What a construct says.
#[derive(Debug, Drop)]
pub enum Says<'a> {
    /// Nothing: a comment, an instruction, the declaration, or white space outside the root.
    Nothing,
    /// A tag begins an element.
    Tag(Tag),
    /// An end tag has this name.
    End(&'a str),
    /// A character or a reference is this character.
    Char(char),
    /// A CDATA section has these characters.
    Data(&'a str),
    /// A document type begins.
    Doctype,
}

/// The construct at the front of a text in this part of a document, and the text behind it.
pub fn construct(alloc: Global, part: Part, text: &str) -> Result<(Says<'_>, &str), Fault>
    ensures read { ReadsUnlessMemory (IsConstruct part) (chars text.now) (attempt (λ found. said found.0) (λ found. chars found.1.now) result) }
    ensures shorter { IfOk result (λ found. length found.1.now < length text.now) }
{
    let Some((c, rest)) = first(text) else {
        return Err(Fault::Stopped(Stop::Cut));
    };
    if c == '<' {
        return markup(alloc, part, rest);
    }
    match plain(part, text) {
        Err(stop) => Err(Fault::Stopped(stop)),
        Ok(found) => Ok(found),
    }
}

/// What isn't markup.
fn plain(part: Part, text: &str) -> Result<(Says<'_>, &str), Stop>
    requires { NotBegins (λ c. c == 0x3c) (chars text.now) }
    ensures read { Reads (IsPlain part) (chars text.now) (outcome (λ found. said found.0) (λ found. chars found.1.now) result) }
    ensures shorter { IfOk result (λ found. length found.1.now < length text.now) }
{
    match part {
        Part::Inside => content(text),
        Part::Start | Part::Before | Part::After => blank(text),
    }
}

/// White space outside the root.
fn blank(text: &str) -> Result<(Says<'_>, &str), Stop>
    ensures read { Reads IsBlank (chars text.now) (outcome (λ found. said found.0) (λ found. chars found.1.now) result) }
    ensures shorter { IfOk result (λ found. length found.1.now < length text.now) }
{
    let Some((c, rest)) = first(text) else {
        return Err(Stop::Cut);
    };
    if is_space(c) {
        Ok((Says::Nothing, rest))
    } else {
        Err(Stop::Broken)
    }
}

/// A reference or a character of the root that is no `<`.
fn content(text: &str) -> Result<(Says<'_>, &str), Stop>
    requires { NotBegins (λ c. c == 0x3c) (chars text.now) }
    ensures read { Reads (IsPlain Part.Inside) (chars text.now) (outcome (λ found. said found.0) (λ found. chars found.1.now) result) }
    ensures shorter { IfOk result (λ found. length found.1.now < length text.now) }
{
    let Some((c, rest)) = first(text) else {
        return Err(Stop::Cut);
    };
    if c == '&' {
        let (c, rest) = reference(rest)?;
        return Ok((Says::Char(c), rest));
    }
    if c == ']' {
        return bracket(rest);
    }
    let (c, rest) = literal(text)?;
    Ok((Says::Char(c), rest))
}

/// A `]`, which may not begin `]]>`, where `rest` stands behind it.
fn bracket(rest: &str) -> Result<(Says<'_>, &str), Stop>
    ensures read { Reads IsBracket (codes "]" ++ chars rest.now) (outcome (λ found. said found.0) (λ found. chars found.1.now) result) }
    ensures shorter { IfOk result (λ found. length found.1.now ≤ length rest.now) }
{
    match expect(rest, "]>") {
        Ok(_) => Err(Stop::Refused),
        Err(Stop::Broken) => Ok((Says::Char(']'), rest)),
        Err(Stop::Cut) => Err(Stop::Cut),
        Err(Stop::Refused) => Err(Stop::Refused),
    }
}

/// Markup behind its `<`.
fn markup(alloc: Global, part: Part, text: &str) -> Result<(Says<'_>, &str), Fault>
    ensures read { ReadsUnlessMemory (IsMarkup part) (chars text.now) (attempt (λ found. said found.0) (λ found. chars found.1.now) result) }
    ensures shorter { IfOk result (λ found. length found.1.now < length text.now) }
{
    let Some((c, rest)) = first(text) else {
        return Err(Fault::Stopped(Stop::Cut));
    };
    if c == '!' {
        return match declared(part, rest) {
            Err(stop) => Err(Fault::Stopped(stop)),
            Ok(found) => Ok(found),
        };
    }
    if c == '?' {
        let rest = skipped(part, rest)?;
        return Ok((Says::Nothing, rest));
    }
    element_tag(alloc, part, text)
}

/// An instruction, or at the start a declaration, behind its `<?`.
fn skipped(part: Part, text: &str) -> Result<&str, Stop>
    ensures read { Reads (IsSkipped part) (chars text.now) (outcome (λ _. tt) (λ rest. chars rest.now) result) }
    ensures shorter { IfOk result (λ rest. length rest.now ≤ length text.now) }
{
    match part {
        Part::Start => declaration(text),
        Part::Before | Part::Inside | Part::After => instruction(text),
    }
}

/// A tag behind its `<`.
fn element_tag(alloc: Global, part: Part, text: &str) -> Result<(Says<'_>, &str), Fault>
    requires { chars text.now ≢ [] }
    ensures read { ReadsUnlessMemory (IsElementTag part) (chars text.now) (attempt (λ found. said found.0) (λ found. chars found.1.now) result) }
    ensures shorter { IfOk result (λ found. length found.1.now < length text.now) }
{
    match part {
        Part::After => Err(Fault::Stopped(Stop::Broken)), // a second root
        Part::Inside => inner_tag(alloc, text),
        Part::Start | Part::Before => beginning(alloc, text),
    }
}

/// A tag of the root behind its `<`.
fn inner_tag(alloc: Global, text: &str) -> Result<(Says<'_>, &str), Fault>
    requires { chars text.now ≢ [] }
    ensures read { ReadsUnlessMemory (IsElementTag Part.Inside) (chars text.now) (attempt (λ found. said found.0) (λ found. chars found.1.now) result) }
    ensures shorter { IfOk result (λ found. length found.1.now < length text.now) }
{
    let Some((c, rest)) = first(text) else {
        return Err(Fault::Stopped(Stop::Cut));
    };
    if c == '/' {
        let (name, rest) = end_tag(rest)?;
        return Ok((Says::End(name), rest));
    }
    beginning(alloc, text)
}

/// A tag that begins an element, behind its `<`.
fn beginning(alloc: Global, text: &str) -> Result<(Says<'_>, &str), Fault>
    ensures read { ReadsUnlessMemory (Behind [] IsTag Begins) (chars text.now) (attempt (λ found. said found.0) (λ found. chars found.1.now) result) }
    ensures shorter { IfOk result (λ found. length found.1.now < length text.now) }
{
    match start_tag(alloc, text) {
        Err(fault) => Err(fault),
        Ok((tag, rest)) => Ok((Says::Tag(tag), rest)),
    }
}

/// What stands behind `<!`.
fn declared(part: Part, text: &str) -> Result<(Says<'_>, &str), Stop>
    ensures read { Reads (Behind (codes "--") IsComment silent or IsSpecial part) (chars text.now) (outcome (λ found. said found.0) (λ found. chars found.1.now) result) }
    ensures shorter { IfOk result (λ found. length found.1.now < length text.now) }
{
    let Some((c, _)) = first(text) else {
        return Err(Stop::Cut);
    };
    if c == '-' {
        dashes(text)
    } else {
        special(part, text)
    }
}

/// A comment behind its `<!`.
fn dashes(text: &str) -> Result<(Says<'_>, &str), Stop>
    ensures read { Reads (Behind (codes "--") IsComment silent) (chars text.now) (outcome (λ found. said found.0) (λ found. chars found.1.now) result) }
    ensures shorter { IfOk result (λ found. length found.1.now < length text.now) }
{
    let body = expect(text, "--")?;
    let rest = comment(body)?;
    Ok((Says::Nothing, rest))
}

/// A CDATA section in the root, or a document type before it, behind its `<!`.
fn special(part: Part, text: &str) -> Result<(Says<'_>, &str), Stop>
    ensures read { Reads (IsSpecial part) (chars text.now) (outcome (λ found. said found.0) (λ found. chars found.1.now) result) }
    ensures shorter { IfOk result (λ found. length found.1.now < length text.now) }
{
    match part {
        Part::After => Err(Stop::Broken),
        Part::Inside => section(text),
        Part::Start | Part::Before => document_type(text),
    }
}

/// A CDATA section behind its `<!`.
fn section(text: &str) -> Result<(Says<'_>, &str), Stop>
    ensures read { Reads (IsSpecial Part.Inside) (chars text.now) (outcome (λ found. said found.0) (λ found. chars found.1.now) result) }
    ensures shorter { IfOk result (λ found. length found.1.now < length text.now) }
{
    let body = expect(text, "[CDATA[")?;
    let (section, rest) = cdata(body)?;
    Ok((Says::Data(section), rest))
}

/// The beginning of a document type behind its `<!`.
fn document_type(text: &str) -> Result<(Says<'_>, &str), Stop>
    ensures read { Reads (Behind (codes "DOCTYPE") (IsText []) (λ _. Declares)) (chars text.now) (outcome (λ found. said found.0) (λ found. chars found.1.now) result) }
    ensures shorter { IfOk result (λ found. length found.1.now < length text.now) }
{
    let rest = expect(text, "DOCTYPE")?;
    Ok((Says::Doctype, rest))
}
