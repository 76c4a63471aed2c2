//! What the breaking of pages reads of master pages and layouts.

ghost use Rattle.std.specs.Prelude.{◌≡◌, ℕ, ◌<◌, ◌-◌, max, find, IfOk, length};
ghost use Rattle.std.specs.Str.{bytes_eq};
ghost use Rattle.std.specs.Option.{option_copied};
ghost use Rattle.page_model.specs.Frames.{frames_of, frame_of, bare_frame, frames_from, layout_named};
ghost use Rattle.style_model.specs.Masters.{AreMastersThere};

use crate::names::is_nameless;
use doc_model::{List, Master, Name, PageLayout};
use page_model::{Frame, Frames};
use page_style::{dims, next_master};
use std::alloc::{AllocError, Global};

/// What is read of all masters.
#[tactic(auto, unfolding(page_model::specs::Frames::frames_of))]
pub fn frames(
    alloc: Global,
    masters: &[Master],
    layouts: &[PageLayout],
) -> Result<Frames, AllocError>
    requires { AreMastersThere masters.now }
    ensures { IfOk result (λ frames. frames ≡ frames_of masters.now layouts.now) }
{
    let mut each = List::new(alloc);
    'masters: for (place, master) in masters.iter().enumerate() {
        each.push(frame(masters, layouts, place, master))?;
    }
    Ok(Frames {
        each,
        bare: bare_frame(),
        first: next_master(masters, None),
    })
}

/// What is read of the master at a place.
fn frame(masters: &[Master], layouts: &[PageLayout], place: usize, master: &Master) -> Frame
    requires there { AreMastersThere masters.now }
    requires place { place < length masters.now }
    ensures { result ≡ frame_of masters.now layouts.now place master.now }
{
    let size = dims(layout_named(layouts, &master.layout));
    let parts = master.header.len().saturating_add(master.footer.len());
    Frame {
        columns: size.columns,
        room: (size.rows as usize).saturating_sub(parts).max(4) as u32,
        next: next_master(masters, Some(place)),
    }
}

/// What is read where there is no master.
fn bare_frame() -> Frame
    ensures { result ≡ bare_frame }
{
    let size = dims(None);
    Frame {
        columns: size.columns,
        room: size.rows.max(4),
        next: None,
    }
}

/// The layout of a name, none for the empty name.
fn layout_named<'a>(layouts: &'a [PageLayout], name: &Name) -> Option<&'a PageLayout>
    ensures { option_copied result ≡ layout_named layouts.now name.now }
{
    if is_nameless(name) {
        return None;
    }
    first_layout(layouts, name)
}

/// The first layout of a name.
fn first_layout<'a>(layouts: &'a [PageLayout], name: &Name) -> Option<&'a PageLayout>
    ensures { option_copied result ≡ find (λ layout. bytes_eq layout.name name.now) layouts.now }
{
    layouts.iter().find(|layout| layout.name == *name)
}
