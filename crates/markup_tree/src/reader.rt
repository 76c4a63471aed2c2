//! From bytes to a tree, or the first offence.

ghost use Rattle.std.specs.Prelude.{◌≡◌, ◌++◌, ◌+◌, ◌^◌, ◌<◌, ◌≤◌, ℕ, List, [], length, vec_len, chars, IfOk, IfErr, OnOk};
ghost use Rattle.markup_tree.specs.Pieces.{line_ends};
ghost use Rattle.markup_tree.specs.Documents.{behind_tag, place_of, byte_count, without_mark, Reaches, IsSpelling, Spells, HasOffence, IsFaultIn, IsTreeUnlessMemory, IsOffenceUnlessMemory};
ghost use Rattle.markup_tree.specs.Stacks.{spot_in, spot_after, IsAtRoot, fault_of, IsFaultOf, IsHeading};
ghost use Rattle.markup_nodes.specs.Nodes.{char_nodes};

use crate::construct::{Says, construct};
use crate::part::Part;
use markup_nodes::{Elem, Nodes, Tree};
use markup_parts::{Class, Stop, first, is_nothing, is_word, run};
use markup_tags::{Fault, Tag};
use std::alloc::{AllocError, AllocFailed, Global};
use std::{mem, str};
use thiserror::Error;

/// How many elements may be open at a place.
const MOST_OPEN: usize = 200;

/// What is wrong with a document.
#[derive(Debug, Clone, Copy, PartialEq, Eq, Error)]
pub enum OffenceKind {
    /// Bytes are no UTF-8.
    #[error("bytes are no UTF-8")]
    NotUtf8,
    /// A construct isn't one of XML, or doesn't fit where it stands, or the document ends too soon.
    #[error("the markup is broken or ends too soon")]
    Form,
    /// A document type begins.
    #[error("a document type begins")]
    Doctype,
    /// An element stands in 200 open ones.
    #[error("an element stands in 200 open ones")]
    Deep,
}

/// An offence and its place.
#[derive(Debug, Clone, Copy, PartialEq, Eq, Error)]
#[error("{kind}, at byte {place}")]
pub struct Offence {
    pub kind: OffenceKind,
    /// The first byte of the construct or the bad sequence, counted from 0, or the length where the document ends too soon.
    pub place: u32,
}

/// Why no tree was read.
#[derive(Debug, Clone, Copy, PartialEq, Eq, Error)]
pub enum ReadFault {
    #[error("{0}")]
    Offence(Offence),
    #[error("memory was refused")]
    NoMemory,
}

impl From<AllocError> for ReadFault {
    ghost use Rattle.std.specs.Prelude.{◌≡◌};
    ghost use Rattle.markup_tree.specs.declared.reader.ReadFault.TheVariants.{NoMemory};

    ghost from_gives = { λ _ e. e ≡ NoMemory };

    fn from(_e: AllocError) -> ReadFault {
        ReadFault::NoMemory
    }
}

impl<T: Drop> From<AllocFailed<T>> for ReadFault {
    ghost use Rattle.std.specs.Prelude.{◌≡◌};
    ghost use Rattle.markup_tree.specs.declared.reader.ReadFault.TheVariants.{NoMemory};

    ghost from_gives = { λ _ e. e ≡ NoMemory };

    fn from(_e: AllocFailed<T>) -> ReadFault {
        ReadFault::NoMemory
    }
}

/// Reads a document of at most 2^28 bytes.
pub fn read_tree(alloc: Global, bytes: &[u8]) -> Result<Tree, ReadFault>
    requires { length bytes.now ≤ 2 ^ 28 }
    // What is read spells the bytes.
    ensures read { IfOk result (λ tree. Spells bytes.now tree) }
    // An offence is the first one.
    ensures offence { IfErr result (IsFaultIn bytes.now) }
    // What has a spelling is read, as that tree and no other, unless memory runs out.
    ensures only { (tree : Tree) → Spells bytes.now tree → IsTreeUnlessMemory tree result }
    // The first offence is told, unless memory runs out.
    ensures told { (offence : Offence) → HasOffence bytes.now offence → IsOffenceUnlessMemory offence result }
{
    match str::from_utf8(bytes) {
        Err(fault) => Err(offence_at(OffenceKind::NotUtf8, fault.valid_up_to())),
        Ok(whole) => read_text(alloc, whole),
    }
}

/// The fault of an offence.
fn offence_at(kind: OffenceKind, place: usize) -> ReadFault
    requires { place < 2 ^ 32 }
    ensures { result ≡ ReadFault.Offence (record { kind = kind; place = place }) }
{
    ReadFault::Offence(Offence {
        kind,
        place: place as u32,
    })
}

/// The place of the text `rest`, which ends the whole.
fn place(whole: &str, rest: &str) -> usize
    requires { length rest.now ≤ length whole.now }
    ensures place { result ≡ place_of (chars whole.now) (chars rest.now) }
    ensures within { result ≤ length whole.now }
{
    whole.len() - rest.len()
}

/// The fault of a construct that isn't read at the text `rest`, which ends the whole.
fn stopped(fault: Fault, whole: &str, rest: &str) -> ReadFault
    requires rest { length rest.now ≤ length whole.now }
    requires whole { length whole.now ≤ 2 ^ 28 }
    ensures { result ≡ fault_of fault (place_of (chars whole.now) (chars rest.now)) (byte_count (chars whole.now)) }
{
    match fault {
        Fault::NoMemory => ReadFault::NoMemory,
        Fault::Stopped(Stop::Cut) => offence_at(OffenceKind::Form, place(whole, "")),
        Fault::Stopped(Stop::Broken | Stop::Refused) => {
            offence_at(OffenceKind::Form, place(whole, rest))
        }
    }
}

/// The text behind a byte order mark, if there is one.
fn unmarked(text: &str) -> &str
    ensures text { chars result.now ≡ without_mark (chars text.now) }
    ensures shorter { length result.now ≤ length text.now }
{
    match first(text) {
        Some(('\u{feff}', rest)) => rest,
        _ => text,
    }
}

/// The tree of a whole text.
fn read_text(alloc: Global, whole: &str) -> Result<Tree, ReadFault>
    requires { length whole.now ≤ 2 ^ 28 }
    ensures read { IfOk result (λ tree. IsSpelling (chars whole.now) tree.root) }
    ensures fault { IfErr result (IsFaultOf (chars whole.now)) }
{
    let (tag, place, rest) = match to_root(alloc, whole, unmarked(whole)) {
        Err(fault) => return Err(fault),
        Ok(found) => found,
    };
    let closed = tag.closed;
    let root = element(alloc, tag, place);
    if closed {
        return to_end(alloc, whole, rest, root);
    }
    match to_close(alloc, whole, rest, root) {
        Err(fault) => Err(fault),
        Ok((root, rest)) => to_end(alloc, whole, rest, root),
    }
}

/// The element that a tag begins, with nothing in it.
fn element(alloc: Global, tag: Tag, place: u32) -> Elem
    ensures { IsHeading tag place result }
{
    let Tag {
        name,
        attrs,
        closed: _,
    } = tag;
    Elem {
        place,
        name,
        attrs,
        nodes: Nodes::new(alloc),
    }
}

/// The tag of the root, its place, and the text behind it.
fn to_root<'a>(
    alloc: Global,
    whole: &'a str,
    start: &'a str,
) -> Result<(Tag, u32, &'a str), ReadFault>
    requires start { chars start.now ≡ without_mark (chars whole.now) }
    requires rest { length start.now ≤ length whole.now }
    requires whole { length whole.now ≤ 2 ^ 28 }
    ensures read { IfOk result (λ found. IsAtRoot (chars whole.now) found.0 found.1 (chars found.2.now)) }
    ensures fault { IfErr result (IsFaultOf (chars whole.now)) }
    ensures shorter { IfOk result (λ found. length found.2.now ≤ length whole.now) }
{
    let mut part = Part::Start;
    let mut rest = start;
    'prolog: loop {
        let (says, behind) = match construct(alloc, part, rest) {
            Err(fault) => return Err(stopped(fault, whole, rest)),
            Ok(found) => found,
        };
        match says {
            Says::Tag(tag) => return Ok((tag, place(whole, rest) as u32, behind)),
            Says::Doctype => return Err(offence_at(OffenceKind::Doctype, place(whole, rest))),
            Says::Nothing | Says::End(_) | Says::Char(_) | Says::Data(_) => {}
        }
        part = Part::Before;
        rest = behind;
    }
}

/// The root with all that stands in it, and the text behind its end tag, where `rest` stands behind its tag.
fn to_close<'a>(
    alloc: Global,
    whole: &'a str,
    rest: &'a str,
    root: Elem,
) -> Result<(Elem, &'a str), ReadFault>
    requires way { Reaches (chars whole.now) (spot_in [] root (chars rest.now)) }
    requires rest { length rest.now ≤ length whole.now }
    requires whole { length whole.now ≤ 2 ^ 28 }
    ensures read { IfOk result (λ found. Reaches (chars whole.now) (spot_after found.0 (chars found.1.now))) }
    ensures fault { IfErr result (IsFaultOf (chars whole.now)) }
    ensures shorter { IfOk result (λ found. length found.1.now ≤ length whole.now) }
{
    let mut rest = rest;
    let mut top = root;
    let mut below = Vec::new(alloc);
    'content: loop {
        let (plain, front) = run(rest, Class::Text);
        if !is_nothing(plain) {
            top.nodes.push_str(plain)?;
            rest = front;
            continue;
        }
        let (says, behind) = match construct(alloc, Part::Inside, rest) {
            Err(fault) => return Err(stopped(fault, whole, rest)),
            Ok(found) => found,
        };
        match says {
            Says::Nothing | Says::Doctype => {}
            Says::Char(c) => top.nodes.push(c)?,
            Says::Data(section) => push_data(&mut top.nodes, section)?,
            Says::Tag(tag) => {
                if below.len() + 1 >= MOST_OPEN {
                    return Err(offence_at(OffenceKind::Deep, place(whole, rest)));
                }
                begin(alloc, &mut below, &mut top, tag, place(whole, rest) as u32)?;
            }
            Says::End(name) => {
                if !is_word(top.name.get(), name) {
                    return Err(offence_at(OffenceKind::Form, place(whole, rest)));
                }
                let Some(parent) = below.pop() else {
                    return Ok((top, behind));
                };
                let elem = mem::replace(&mut top, parent);
                top.nodes.push_elem(alloc, elem)?;
            }
        }
        rest = behind;
    }
}

/// Begins the element of a tag in the last of these open ones.
fn begin(
    alloc: Global,
    below: &mut Vec<Elem>,
    top: &mut Elem,
    tag: Tag,
    place: u32,
) -> Result<(), AllocError>
    ensures count { OnOk result (vec_len below.new ≤ vec_len below.old + 1) }
    ensures spot { OnOk result ((before after : List ℕ) → behind_tag place (spot_in below.old.items top.old before) tag after ≡ spot_in below.new.items top.new after) }
{
    let closed = tag.closed;
    let elem = element(alloc, tag, place);
    if closed {
        return top.nodes.push_elem(alloc, elem);
    }
    below.push(mem::replace(top, elem))?;
    Ok(())
}

/// Adds the characters of a CDATA section to nodes.
fn push_data(nodes: &mut Nodes<Elem>, section: &str) -> Result<(), AllocError>
    ensures { OnOk result (nodes.new ≡ nodes.old ++ char_nodes (line_ends (chars section.now))) }
{
    let mut returned = false;
    let mut rest = section;
    'section: while let Some((c, behind)) = first(rest) {
        if c == '\r' {
            nodes.push('\n')?;
        } else if c != '\n' || !returned {
            nodes.push(c)?;
        }
        returned = c == '\r';
        rest = behind;
    }
    Ok(())
}

/// The tree of a root, where `rest` stands behind it.
fn to_end(alloc: Global, whole: &str, rest: &str, root: Elem) -> Result<Tree, ReadFault>
    requires way { Reaches (chars whole.now) (spot_after root (chars rest.now)) }
    requires rest { length rest.now ≤ length whole.now }
    requires whole { length whole.now ≤ 2 ^ 28 }
    ensures read { IfOk result (λ tree. IsSpelling (chars whole.now) tree.root) }
    ensures fault { IfErr result (IsFaultOf (chars whole.now)) }
{
    let mut rest = rest;
    'epilog: loop {
        if is_nothing(rest) {
            return Ok(Tree { root });
        }
        match construct(alloc, Part::After, rest) {
            Err(fault) => return Err(stopped(fault, whole, rest)),
            Ok((_, behind)) => rest = behind,
        }
    }
}
