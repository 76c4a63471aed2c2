//! What is left out in declarations.
ghost use Rattle.std.specs.Prelude.{◌≡◌, ◌-◌, List, ℕ, map, length};
ghost use Rattle.load_model.specs.Blocks as blocks;
ghost use Rattle.load_model.specs.Left as left;
ghost use Rattle.element_parts.specs.Shown.{shown};
ghost use Rattle.declared_names.specs.Kept.{AreStated};

use crate::stated::Stated;
use element_parts::LeftOut;

/// What is left out in declarations of one kind, of which so many are stated and these are kept.
pub fn declared_left(stated: usize, kept: &[Stated<'_>]) -> LeftOut
    ensures { (declarations : List blocks.Declared) → AreStated kept.now declarations → result ≡ shown (left.both (left.all_of (map (λ declared. declared.left) declarations)) (left.only_elements (stated - length declarations))) }
{
    let others = LeftOut::elements(stated.saturating_sub(kept.len()));
    all_left(kept).both(others)
}

// What is left out in those that are kept.
fn all_left(kept: &[Stated<'_>]) -> LeftOut
    ensures { (lefts : List left.Left) → map (λ one. one.left) kept.now ≡ map shown lefts → result ≡ shown (left.all_of lefts) }
{
    let mut total = LeftOut::nothing();
    'kept: for one in kept {
        total = with_left(total, one);
    }
    total
}

// What is left out in one more.
fn with_left(total: LeftOut, one: &Stated<'_>) -> LeftOut
    ensures { (some last : left.Left) → total ≡ shown some → one.now.left ≡ shown last → result ≡ shown (left.both some last) }
{
    total.both(one.left)
}
