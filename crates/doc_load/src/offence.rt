//! Why a file isn't loaded.
ghost use Rattle.std.specs.Prelude.{◌≡◌};
ghost use Rattle.doc_load.specs.Offences.{fault_of, of_markup, of_markup_kind, of_tree, of_tree_kind};

use doc_model::Limit;
use load_model::{TreeOffence, TreeOffenceKind};
use markup_tree::ReadFault;
use std::alloc::AllocError;
use thiserror::Error;

/// What is wrong with a file. At one place the first of these in their order is named.
#[derive(Debug, Clone, Copy, PartialEq, Eq, Error)]
pub enum OffenceKind {
    /// Bytes are no UTF-8.
    #[error("bytes are no UTF-8")]
    NotUtf8,
    /// A construct isn't one of XML, or doesn't fit where it stands, or the file ends too soon.
    #[error("the markup is broken or ends too soon")]
    Form,
    /// A document type begins.
    #[error("a document type begins")]
    Doctype,
    /// An element stands in 200 open ones.
    #[error("an element stands in 200 open ones")]
    Deep,
    /// An element or attribute has an undeclared prefix, or two attributes of an element have one expanded name.
    #[error("names go against their namespaces")]
    Names,
    /// The root isn't 'office:document'.
    #[error("the root is no document")]
    Root,
    /// 'office:mimetype' isn't that of a text or of a master document.
    #[error("the document is no text")]
    Mime,
    /// There is no 'office:body' with an 'office:text', or a second one of either.
    #[error("there is no text, or a second one")]
    NoText,
    /// A style is its own ancestor.
    #[error("a style is its own ancestor")]
    StyleLoop,
    /// A limit is passed.
    #[error("a limit is passed")]
    Limit(Limit),
    /// A table stands where a block is read.
    #[error("a table stands where a block is read")]
    Table,
}

/// An offence and its place.
#[derive(Debug, Clone, Copy, PartialEq, Eq, Error)]
#[error("{kind}, at byte {place}")]
pub struct Offence {
    /// What it is.
    pub kind: OffenceKind,
    /// The first byte of the construct, the bad sequence or the element, counted from 0, or the length where the file ends too soon.
    pub place: u32,
}

/// Why a file isn't loaded.
#[derive(Debug, Clone, Copy, PartialEq, Eq, Error)]
pub enum LoadFault {
    #[error("{0}")]
    Offence(Offence),
    #[error("memory was refused")]
    NoMemory,
}

impl From<AllocError> for LoadFault {
    ghost use Rattle.std.specs.Prelude.{◌≡◌};
    ghost use Rattle.doc_load.specs.declared.offence.LoadFault.TheVariants.{NoMemory};

    ghost from_gives = { λ _ e. e ≡ NoMemory };

    fn from(_e: AllocError) -> LoadFault {
        LoadFault::NoMemory
    }
}

/// The fault of markup that isn't read.
pub(crate) fn markup_fault(fault: ReadFault) -> LoadFault
    ensures { result ≡ fault_of fault }
{
    match fault {
        ReadFault::Offence(offence) => LoadFault::Offence(markup_offence(offence)),
        ReadFault::NoMemory => LoadFault::NoMemory,
    }
}

// An offence of markup.
fn markup_offence(offence: markup_tree::Offence) -> Offence
    ensures { result ≡ of_markup offence }
{
    Offence {
        kind: markup_kind(offence.kind),
        place: offence.place,
    }
}

// The kind of an offence of markup.
fn markup_kind(kind: markup_tree::OffenceKind) -> OffenceKind
    ensures { result ≡ of_markup_kind kind }
{
    match kind {
        markup_tree::OffenceKind::NotUtf8 => OffenceKind::NotUtf8,
        markup_tree::OffenceKind::Form => OffenceKind::Form,
        markup_tree::OffenceKind::Doctype => OffenceKind::Doctype,
        markup_tree::OffenceKind::Deep => OffenceKind::Deep,
    }
}

/// An offence of a tree.
pub(crate) fn tree_offence(offence: TreeOffence) -> Offence
    ensures { result ≡ of_tree offence }
{
    Offence {
        kind: tree_kind(offence.kind),
        place: offence.place,
    }
}

// The kind of an offence of a tree.
fn tree_kind(kind: TreeOffenceKind) -> OffenceKind
    ensures { result ≡ of_tree_kind kind }
{
    match kind {
        TreeOffenceKind::Names => OffenceKind::Names,
        TreeOffenceKind::Root => OffenceKind::Root,
        TreeOffenceKind::Mime => OffenceKind::Mime,
        TreeOffenceKind::NoText => OffenceKind::NoText,
        TreeOffenceKind::StyleLoop => OffenceKind::StyleLoop,
        TreeOffenceKind::Limit(limit) => OffenceKind::Limit(limit),
        TreeOffenceKind::Table => OffenceKind::Table,
    }
}
