//! The paragraphs that a change touches.

ghost use Rattle.std.specs.Prelude.{◌≡◌, [], ◌∷◌, map, length};
ghost use Rattle.doc_model.specs.Reading.{upwards};
ghost use Rattle.idle_queue.specs.Marked.{marked};

use crate::kept::LivePar;

/// Makes a version the one that last touched the paragraphs of these numbers. Numbers that no paragraph has are passed
/// over. It costs what the numbers cost.
pub(crate) fn touch_all(live: &mut Vec<LivePar>, touched: &[u32], version: u32)
    requires { map (λ live. live.par) live.old.items ≡ upwards 1 (length live.old.items) }
    ensures { live.new.items ≡ map (marked version touched.now) live.old.items }
{
    'touched: for number in touched {
        touch(live, *number, version);
    }
}

// Makes a version the one that last touched the paragraph of a number, if there is one.
fn touch(live: &mut Vec<LivePar>, number: u32, version: u32)
    requires { map (λ live. live.par) live.old.items ≡ upwards 1 (length live.old.items) }
    ensures { live.new.items ≡ map (marked version (number ∷ [])) live.old.items }
{
    if number == 0 {
        return;
    }
    let place = number as usize - 1;
    if place < live.len() {
        live[place].touch(version);
    }
}
