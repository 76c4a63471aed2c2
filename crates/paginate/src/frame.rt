//! What is read of a page's master.

ghost use Rattle.std.specs.Prelude.{◌≡◌};
ghost use Rattle.page_model.specs.Frames.{frame_at, next_of};

use page_model::{Frame, Frames};

/// What is read of the master at a place, or of none.
pub fn frame_at(frames: &Frames, master: Option<usize>) -> Frame
    ensures { result ≡ frame_at frames.now master }
{
    match master {
        Some(place) => frames.each.get().get(place).copied().unwrap_or(frames.bare),
        None => frames.bare,
    }
}

/// The master of the page behind one with this master, or of a first page.
pub fn next_of(frames: &Frames, master: Option<usize>) -> Option<usize>
    ensures { result ≡ next_of frames.now master }
{
    match master {
        Some(_) => frame_at(frames, master).next,
        None => frames.first,
    }
}
