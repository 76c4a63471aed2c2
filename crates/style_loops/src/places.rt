//! Places of styles in a list, by families and names.
ghost use Rattle.std.specs.Prelude.{◌≡◌, ◌++◌, ◌∷◌, [], List, position, chars, length, OnOk, IfOk};
ghost use Rattle.doc_model.specs.declared.style.Family.{Family};
ghost use Rattle.doc_model.specs.declared.style.Style.{Style};
ghost use Rattle.style_model.specs.Lineage.{is_named};
ghost use Rattle.std.specs.Str.{IsUtf8};
ghost use Rattle.style_loops.specs.Places.{Has, found, of_family, put};

use doc_model::{Family, Style};
use indexmap::IndexMap;
use std::alloc::{AllocError, Global};

/// The place of each style in a list, counted from 0, found by family and name.
#[derive(Drop)]
pub(crate) struct StylePlaces<'a> {
    paragraph: IndexMap<&'a str, usize>,
    text: IndexMap<&'a str, usize>,
    section: IndexMap<&'a str, usize>,
}

/// The places of these styles; of those of one family and name the first.
pub(crate) fn places_of<'a>(
    alloc: Global,
    styles: &'a [Style],
) -> Result<StylePlaces<'a>, AllocError>
    ensures { IfOk result (λ places. Has places styles.now) }
{
    let mut places = StylePlaces {
        paragraph: IndexMap::new(alloc),
        text: IndexMap::new(alloc),
        section: IndexMap::new(alloc),
    };
    for (place, style) in styles.iter().enumerate() {
        places.add(style, place)?;
    }
    Ok(places)
}

impl<'a> StylePlaces<'a> {
    /// The place of the style of a family and name, if there is one.
    pub(crate) fn find(&self, family: Family, name: &str) -> Option<usize>
        ensures { (styles : List Style) → Has self.now styles → result ≡ position (is_named family (chars name.now)) styles }
    {
        find_in(self.of_family(family), as_text(name))
    }

    // Adds one more style behind so many.
    fn add(&mut self, style: &'a Style, place: usize) -> Result<(), AllocError>
        ensures { OnOk result ((before : List Style) → length before ≡ place → Has self.old before → Has self.new (before ++ style.now ∷ [])) }
    {
        let name = as_text(style.name.get());
        match style.family {
            Family::Paragraph => put(&mut self.paragraph, name, place),
            Family::Text => put(&mut self.text, name, place),
            Family::Section => put(&mut self.section, name, place),
        }
    }

    // The places of the styles of a family.
    fn of_family(&self, family: Family) -> &IndexMap<&'a str, usize>
        ensures { result.now.entries ≡ of_family self.now family }
    {
        match family {
            Family::Paragraph => &self.paragraph,
            Family::Text => &self.text,
            Family::Section => &self.section,
        }
    }
}

// The place of a name.
fn find_in(places: &IndexMap<&str, usize>, name: &str) -> Option<usize>
    ensures { result ≡ found places.now.entries name.now }
{
    match places.get(name) {
        Some(place) => Some(*place),
        None => None,
    }
}

// Keeps the place of a name, where none is kept yet.
fn put<'a>(
    places: &mut IndexMap<&'a str, usize>,
    name: &'a str,
    place: usize,
) -> Result<(), AllocError>
    ensures { OnOk result (places.new.entries ≡ put places.old.entries name.entry place) }
{
    if find_in(places, name).is_none() {
        places.insert(name, place)?;
    }
    Ok(())
}

// The same text.
fn as_text(text: &str) -> &str
    ensures same { result.now ≡ text.now }
    ensures utf8 { IsUtf8 text.now }
{
    text
}
