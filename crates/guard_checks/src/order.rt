//! The order of paragraphs by their rows.

ghost use Rattle.std.specs.Prelude.{◌≡◌, ◌&&◌, ℕ, nat_le, Some, position};
ghost use Rattle.node_array.specs.Places.{is_par};
ghost use Rattle.node_array.specs.Rows.{rows_of};

use doc_model::ParId;
use node_array::NodeArray;

/// Whether the row of a live paragraph stands before that of another, or is the same.
pub(crate) fn is_before(rows: &NodeArray, one: ParId, other: ParId) -> bool
    ensures { (at behind : ℕ) → position (is_par one) (rows_of rows.now) ≡ Some at → position (is_par other) (rows_of rows.now) ≡ Some behind → result ≡ nat_le at behind }
{
    place(rows, one) <= place(rows, other)
}

/// Whether it stands before two others.
pub(crate) fn is_first(rows: &NodeArray, one: ParId, other: ParId, third: ParId) -> bool
    ensures { (at behind last : ℕ) → position (is_par one) (rows_of rows.now) ≡ Some at → position (is_par other) (rows_of rows.now) ≡ Some behind → position (is_par third) (rows_of rows.now) ≡ Some last → result ≡ (nat_le at behind && nat_le at last) }
{
    is_before(rows, one, other) && is_before(rows, one, third)
}

// The place of a live paragraph's row.
fn place(rows: &NodeArray, par: ParId) -> usize
    ensures { (at : ℕ) → position (is_par par) (rows_of rows.now) ≡ Some at → result ≡ at }
{
    match rows.row_of(par) {
        Some(at) => at,
        None => 0,
    }
}
