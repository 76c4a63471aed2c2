//! The names of styles, by their families.
ghost use Rattle.std.specs.Prelude.{◌≡◌, [], chars, not, if◌then◌else◌, OnOk, IfOk};
ghost use Rattle.doc_model.specs.declared.style.Family.{Family};
ghost use Rattle.style_model.specs.Lineage.{is_same_family};
ghost use Rattle.load_model.specs.Left.{is_one_of};
ghost use Rattle.sheet_names.specs.Known.{of_family, with_name};

use doc_model::Family;
use element_parts::NameSet;
use std::alloc::{AllocError, Global};

/// Names of styles in the order in which they were added, each once in its family.
#[derive(Drop)]
pub struct StyleNames {
    paragraph: NameSet,
    text: NameSet,
    section: NameSet,
}

impl StyleNames {
    /// No name. It takes no memory.
    pub fn new(alloc: Global) -> StyleNames
        ensures { (of : Family) → of_family result of ≡ [] }
    {
        StyleNames {
            paragraph: NameSet::new(alloc),
            text: NameSet::new(alloc),
            section: NameSet::new(alloc),
        }
    }

    /// Whether a text is the name of a style of a family.
    pub fn has(&self, family: Family, text: &str) -> bool
        ensures { result ≡ is_one_of (of_family self.now family) (chars text.now) }
    {
        match family {
            Family::Paragraph => self.paragraph.has(text),
            Family::Text => self.text.has(text),
            Family::Section => self.section.has(text),
        }
    }

    /// Adds the name of a style of a family where it isn't there yet, and answers whether it wasn't.
    pub fn add(&mut self, alloc: Global, family: Family, name: &str) -> Result<bool, AllocError>
        ensures is_new { IfOk result (λ is_new. is_new ≡ not (is_one_of (of_family self.old family) (chars name.now))) }
        ensures names { OnOk result ((of : Family) → of_family self.new of ≡ (if is_same_family family of then with_name (of_family self.old of) (chars name.now) else of_family self.old of)) }
    {
        match family {
            Family::Paragraph => self.paragraph.add(alloc, name),
            Family::Text => self.text.add(alloc, name),
            Family::Section => self.section.add(alloc, name),
        }
    }
}
