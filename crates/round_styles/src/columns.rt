//! The columns of pages by their masters.

ghost use Rattle.std.specs.Prelude.{◌≡◌, [], find, option_copied, Some};
ghost use Rattle.std.specs.Str.{bytes_eq};
ghost use Rattle.style_model.specs.Masters.{place_of_master};
ghost use Rattle.page_model.specs.Frames.{layout_named};
ghost use Rattle.page_model.specs.BodyRows.{stated_master};
ghost use Rattle.round_styles.specs.Columns.{columns_at as page_columns, layout_at};

use doc_model::{Master, Name, PageLayout};
use page_style::dims;
use sqlite_items::at;

/// The place of the master that is stated, from 0: none where none, or the empty name, is stated.
pub fn stated_master(masters: &[Master], stated: Option<&Name>) -> Option<usize>
    ensures { result ≡ stated_master masters.now (option_copied stated.entry) }
{
    match stated {
        Some(name) => master_named(masters, name),
        None => None,
    }
}

/// The place of the master of a name, and none for the empty name.
fn master_named(masters: &[Master], name: &Name) -> Option<usize>
    ensures { result ≡ stated_master masters.now (Some name.now) }
{
    if is_nameless(name) {
        return None;
    }
    place_named(masters, name)
}

/// The place of the first master of a name.
fn place_named(masters: &[Master], name: &Name) -> Option<usize>
    ensures { result ≡ place_of_master masters.now name.now }
{
    masters.iter().position(|master| master.name == *name)
}

/// Whether a name is the empty one.
fn is_nameless(name: &Name) -> bool
    ensures { result ≡ bytes_eq name.now [] }
{
    *name == Name::none(name.allocator())
}

/// The columns of pages with the master at a place, or with none.
pub fn columns_at(masters: &[Master], layouts: &[PageLayout], place: Option<usize>) -> u32
    ensures { result ≡ page_columns masters.now layouts.now place }
{
    dims(layout_at(masters, layouts, place)).columns
}

/// The layout of the master at a place, if it has one.
fn layout_at<'a>(
    masters: &[Master],
    layouts: &'a [PageLayout],
    place: Option<usize>,
) -> Option<&'a PageLayout>
    ensures { option_copied result ≡ layout_at masters.now layouts.now place }
{
    match place {
        Some(place) => match at(masters, place) {
            Some(master) => layout_named(layouts, &master.layout),
            None => None,
        },
        None => None,
    }
}

/// The layout of a name: none for the empty one.
fn layout_named<'a>(layouts: &'a [PageLayout], name: &Name) -> Option<&'a PageLayout>
    ensures { option_copied result ≡ layout_named layouts.now name.now }
{
    if is_nameless(name) {
        return None;
    }
    first_layout(layouts, name)
}

/// The first layout of a name.
fn first_layout<'a>(layouts: &'a [PageLayout], name: &Name) -> Option<&'a PageLayout>
    ensures { option_copied result ≡ find (λ layout. bytes_eq layout.name name.now) layouts.now }
{
    layouts.iter().find(|layout| layout.name == *name)
}
