//! The names that can be referred to.
ghost use Rattle.std.specs.Prelude.{◌≡◌, [], chars};
ghost use Rattle.std.specs.Str.{bytes_eq};
ghost use Rattle.std.specs.Option.{option_map};
ghost use Rattle.load_model.specs.Styles as styles;
ghost use Rattle.sheet_names.specs.Known.{Knows};

use crate::style_names::StyleNames;
use doc_model::Family;
use element_parts::NameSet;

/// The names that can be referred to.
#[derive(Drop)]
pub struct Names {
    /// Those of styles.
    pub styles: StyleNames,
    /// Those of list styles.
    pub lists: NameSet,
    /// Those of page layouts.
    pub layouts: NameSet,
    /// Those of masters.
    pub masters: NameSet,
}

impl Names {
    /// A reference to a style of a family; any other text is a bad value.
    pub fn style_reference<'a>(&self, family: Family, text: &'a str) -> Option<&'a str>
        ensures { (names : styles.Names) → Knows self.now names → option_map (λ name. chars name.now) result ≡ styles.style_reference names family (chars text.now) }
    {
        if self.styles.has(family, text) {
            return Some(text);
        }
        None
    }

    /// The master that a style states: one that is there, or the empty text as a stated none.
    pub fn master_reference<'a>(&self, text: &'a str) -> Option<&'a str>
        ensures { (names : styles.Names) → Knows self.now names → option_map (λ name. chars name.now) result ≡ styles.master_reference names (chars text.now) }
    {
        if is_empty(text) {
            return Some(text);
        }
        reference(&self.masters, text)
    }

    /// A reference to a list style.
    pub fn list_reference<'a>(&self, text: &'a str) -> Option<&'a str>
        ensures { (names : styles.Names) → Knows self.now names → option_map (λ name. chars name.now) result ≡ styles.reference names.lists (chars text.now) }
    {
        reference(&self.lists, text)
    }

    /// A reference to a page layout.
    pub fn layout_reference<'a>(&self, text: &'a str) -> Option<&'a str>
        ensures { (names : styles.Names) → Knows self.now names → option_map (λ name. chars name.now) result ≡ styles.reference names.layouts (chars text.now) }
    {
        reference(&self.layouts, text)
    }
}

// A reference to something whose name is there.
fn reference<'a>(names: &NameSet, text: &'a str) -> Option<&'a str>
    ensures { option_map (λ name. chars name.now) result ≡ styles.reference names.now (chars text.now) }
{
    if names.has(text) {
        return Some(text);
    }
    None
}

/// Whether a text is empty.
pub fn is_empty(text: &str) -> bool
    ensures { result ≡ bytes_eq (chars text.now) [] }
{
    text == ""
}
