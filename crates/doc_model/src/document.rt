//! The whole document.

ghost use Rattle.std.specs.Prelude.{◌≡◌, IfOk};
ghost use Rattle.doc_model.specs.Empty.{only_body};

use crate::block::Block;
use crate::list::List;
use crate::list_style::ListStyle;
use crate::page_layout::{Master, NoteStart, PageLayout};
use crate::style::{Props, Style};
use crate::texts::Name;
use std::alloc::{AllocError, Global};

/// A text document: what a flat OpenDocument file says.
#[derive(Debug, Drop)]
pub struct Document {
    /// Whether it is a master document ('text:global').
    pub global: bool,
    /// The default style of paragraphs ('style:default-style').
    pub defaults: Props,
    /// The styles, automatic ones last.
    pub styles: List<Style>,
    /// The list styles.
    pub lists: List<ListStyle>,
    /// The outline style, whose name is empty.
    pub outline: ListStyle,
    /// The page layouts.
    pub layouts: List<PageLayout>,
    /// The master pages.
    pub masters: List<Master>,
    /// The declared variables ('text:variable-decl').
    pub variables: List<Name>,
    /// The declared sequences ('text:sequence-decl').
    pub sequences: List<Name>,
    /// How footnotes are counted.
    pub counting: NoteStart,
    /// The blocks of the text in reading order, at least one.
    pub body: List<Block>,
}

impl Document {
    /// The document of these blocks, in which all else is empty or unstated. It takes no memory.
    pub fn from_body(alloc: Global, body: List<Block>) -> Document
        ensures { result ≡ only_body body }
    {
        Document {
            global: false,
            defaults: Props::unstated(),
            styles: List::new(alloc),
            lists: List::new(alloc),
            outline: ListStyle::no_outline(alloc),
            layouts: List::new(alloc),
            masters: List::new(alloc),
            variables: List::new(alloc),
            sequences: List::new(alloc),
            counting: NoteStart::Document,
            body,
        }
    }

    pub fn copy(&self) -> Result<Document, AllocError>
        ensures { IfOk result (λ c. c ≡ self.now) }
    {
        let defaults = self.defaults.copy()?;
        let styles = self.styles.copy()?;
        let lists = self.lists.copy()?;
        let outline = self.outline.copy()?;
        let layouts = self.layouts.copy()?;
        let masters = self.masters.copy()?;
        let variables = self.variables.copy()?;
        let sequences = self.sequences.copy()?;
        let body = self.body.copy()?;
        Ok(Document {
            global: self.global,
            defaults,
            styles,
            lists,
            outline,
            layouts,
            masters,
            variables,
            sequences,
            counting: self.counting,
            body,
        })
    }
}
