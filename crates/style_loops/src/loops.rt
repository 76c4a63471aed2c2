//! Styles that are their own ancestors.
ghost use Rattle.std.specs.Prelude.{◌≡◌, List, false, map, slice_index_or, chars, IfOk};
ghost use Rattle.std.specs.Option.{option_map_or};
ghost use Rattle.doc_model.specs.declared.style.Style.{Style};
ghost use Rattle.style_model.specs.Lineage.{style_named};
ghost use Rattle.style_loops.specs.Places.{Has};
ghost use Rattle.style_loops.specs.Loops.{AreDistinct, parent_in, loops};
ghost use Rattle.style_loops.specs.Told.{Tells};

use crate::places::{StylePlaces, places_of};
use doc_model::{Family, Style};
use parent_loops::own_ancestors;
use std::alloc::{AllocError, Global};

/// Which styles are their own ancestors, told by family and name.
#[derive(Drop)]
pub struct StyleLoops<'a> {
    places: StylePlaces<'a>,
    looped: Vec<bool>,
}

impl<'a> StyleLoops<'a> {
    /// Finds out which of these styles are their own ancestors.
    pub fn new(alloc: Global, styles: &'a [Style]) -> Result<StyleLoops<'a>, AllocError>
        ensures { IfOk result (λ found. AreDistinct styles.now → Tells found styles.now) }
    {
        let places = places_of(alloc, styles)?;
        let parents = parents_of(alloc, &places, styles)?;
        let looped = own_ancestors(alloc, parents.as_slice())?;
        Ok(StyleLoops { places, looped })
    }

    /// Whether there is a style of a family and name that is its own ancestor.
    pub fn has(&self, family: Family, name: &str) -> bool
        ensures { (styles : List Style) → Tells self.now styles → result ≡ option_map_or (loops styles) (style_named styles family (chars name.now)) false }
    {
        match self.places.find(family, name) {
            Some(place) => self.flag_at(place),
            None => false,
        }
    }

    // Whether the style at a place is its own ancestor.
    fn flag_at(&self, place: usize) -> bool
        ensures { result ≡ slice_index_or self.now.looped.items place false }
    {
        match self.looped.as_slice().get(place) {
            Some(flag) => *flag,
            None => false,
        }
    }
}

// The place of the parent of each style, if it has one.
fn parents_of(
    alloc: Global,
    places: &StylePlaces<'_>,
    styles: &[Style],
) -> Result<Vec<Option<usize>>, AllocError>
    ensures { IfOk result (λ parents. (all : List Style) → Has places.now all → parents.items ≡ map (parent_in all) styles.now) }
{
    let mut parents = Vec::with_capacity(alloc, styles.len())?;
    for style in styles {
        parents.push(places.find(style.family, style.parent.get()))?;
    }
    Ok(parents)
}
