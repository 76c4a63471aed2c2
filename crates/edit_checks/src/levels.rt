//! Levels that aren't 1 to 10.

ghost use Rattle.std.specs.Prelude.{◌≡◌, nat_lt};
ghost use Rattle.edit_rules.specs.Refusals.{bad_level, is_no_level, refused_if};

use doc_model::{EditOp, Field, Refusal};

/// The refusal by a level that is above 10, or 0 where it has to be 1 to 10. It takes no memory.
pub fn bad_level(op: &EditOp) -> Option<Refusal>
    ensures { result ≡ bad_level op.now }
{
    match op {
        EditOp::SetHeading { level, .. } => above_ten(*level),
        EditOp::SetList { list, .. } => match list {
            Some(place) => not_one_to_ten(place.level),
            None => None,
        },
        EditOp::InsertField { field, .. } => match field {
            Field::Chapter { level, .. } => not_one_to_ten(*level),
            _ => None,
        },
        EditOp::DefineStyle { style } => above_ten(style.outline),
        _ => None,
    }
}

// The refusal of a level above 10.
fn above_ten(level: u8) -> Option<Refusal>
    ensures { result ≡ refused_if (nat_lt 10 level) (Refusal.Level level) }
{
    if level > 10 {
        Some(Refusal::Level(level))
    } else {
        None
    }
}

// The refusal of a level that isn't 1 to 10.
fn not_one_to_ten(level: u8) -> Option<Refusal>
    ensures { result ≡ refused_if (is_no_level level) (Refusal.Level level) }
{
    if level == 0 {
        return Some(Refusal::Level(level));
    }
    above_ten(level)
}
