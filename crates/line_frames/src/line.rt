//! The first line of units.

ghost use Rattle.std.specs.Prelude.{◌≡◌, ◌<◌, ◌≤◌, ℕ, List, [], ◌∷◌, ◌++◌, length};
ghost use Rattle.line_model.specs.Lines.{line_length, may_end_behind};
ghost use Rattle.line_model.specs.Units.{is_space, ends_word};
ghost use Rattle.line_model.specs.declared.unit.TextUnit.{TextUnit};
ghost use Rattle.line_frames.specs.Rooms.{IsLeft};

use line_model::{TextUnit, UnitClass};

/// How many of these units are their first line, which may take so many columns: the most that fit and behind which a line
/// may end, else the most that fit, else one. It looks at no unit behind the first that is no space and takes more columns
/// than are left.
pub(crate) fn line_length(width: u32, units: &[TextUnit]) -> usize
    ensures value { result ≡ line_length width units.now }
    ensures some { 1 ≤ result }
    ensures within { 0 < length units.now → result ≤ length units.now }
{
    let mut room = Some(width);
    let mut fitting = None;
    let mut ending = None;
    'units: for (index, unit) in units.iter().enumerate() {
        room = room_behind(room, unit);
        if room.is_none() && !is_space(unit) {
            break;
        }
        fitting = Some(index + 1);
        if may_end_behind(&units[index..]) {
            ending = fitting;
        }
    }
    ending.or(fitting).unwrap_or(1)
}

/// What is left of a room behind a unit: none where the unit takes more.
fn room_behind(room: Option<u32>, unit: &TextUnit) -> Option<u32>
    ensures { (width : ℕ) (before : List TextUnit) → IsLeft width before room → IsLeft width (before ++ unit.now ∷ []) result }
{
    room?.checked_sub(unit.columns)
}

/// Whether a line may end behind the first of these units.
fn may_end_behind(units: &[TextUnit]) -> bool
    ensures { result ≡ may_end_behind 1 units.now }
{
    match units {
        [] => false,
        [_] => true,
        [unit, next, ..] => ends_word(unit) && !is_space(next),
    }
}

fn is_space(unit: &TextUnit) -> bool
    ensures { result ≡ is_space unit.now }
{
    unit.class == UnitClass::Space
}

fn ends_word(unit: &TextUnit) -> bool
    ensures { result ≡ ends_word unit.now }
{
    unit.class != UnitClass::Other
}
