//! Copies of rows.

ghost use Rattle.std.specs.Prelude.{◌≡◌, ◌≤◌, ◌++◌, length, OnOk};
ghost use Rattle.std.specs.List.{between};
ghost use Rattle.node_array.specs.Rows.{rows_of};

use node_array::{NodeArray, Row};
use std::alloc::AllocError;

/// Appends copies of the rows from `from` up to `to`, counted from 0.
pub fn push_rows(
    copies: &mut Vec<Row>,
    rows: &NodeArray,
    from: usize,
    to: usize,
) -> Result<(), AllocError>
    requires in_order { from ≤ to }
    requires in_range { to ≤ length (rows_of rows.now) }
    ensures { OnOk result (copies.new.items ≡ copies.old.items ++ between from to (rows_of rows.now)) }
{
    for at in from..to {
        copies.push(rows.row(at).copy()?)?;
    }
    Ok(())
}
