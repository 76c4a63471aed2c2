//! Rows up to the end of what is open.

ghost use Rattle.std.specs.Prelude.{◌≡◌, ◌≢◌, ◌≤◌, ◌+◌, ◌∷◌, List, length, drop};
ghost use Rattle.container_rows.specs.Texts.{through_ends};
ghost use Rattle.node_array.specs.declared.row.Row.{Row};
ghost use Rattle.node_array.specs.Rows.{rows_of};

use node_array::{NodeArray, Row};

/// The place behind so many End rows from a place on, both counted from 0, or behind all rows where there are fewer. It takes
/// no memory.
pub fn behind_ends(rows: &NodeArray, from: usize, count: usize) -> usize
    requires in_range { from ≤ length (rows_of rows.now) }
    ensures place { result ≡ from + through_ends count (drop from (rows_of rows.now)) }
    ensures in_range { result ≤ length (rows_of rows.now) }
{
    let mut left = count;
    for at in from..rows.len() {
        if left == 0 {
            return at;
        }
        left = left_behind(rows.row(at), left);
    }
    rows.len()
}

// How many End rows are left behind a row.
fn left_behind(one: &Row, count: usize) -> usize
    requires { count ≢ 0 }
    ensures { (behind : List Row) → through_ends count (one.now ∷ behind) ≡ through_ends result behind + 1 }
{
    match one {
        Row::End => count - 1,
        _ => count,
    }
}
