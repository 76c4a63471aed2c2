//! The last pages.

ghost use Rattle.std.specs.Prelude.{◌≡◌, ℕ, ◌+◌, ◌<◌, ◌≤◌, ◌^◌, [], OnOk};
ghost use Rattle.paginate.specs.Reached.{size_of, IsDone};
ghost use Rattle.paginate.specs.Roomy.{IsRoomy};
ghost use Rattle.paginate.specs.Standing.{left_of};

use crate::breaker::Breaker;
use page_model::{Frames, Row};
use std::alloc::{AllocError, Global};

/// Closes pages until neither a row nor a carried note row is left, and one at least.
pub fn close_all(
    alloc: Global,
    frames: &Frames,
    breaker: &mut Breaker,
    rows: &[Row],
) -> Result<(), AllocError>
    requires { IsRoomy frames.now }
    ensures { (most : ℕ) → breaker.old.pages.items ≡ [] → breaker.old.number ≤ most → 65535 ≤ most → most + size_of (left_of breaker.old) rows.now + 1 < 2 ^ 32 → OnOk result (IsDone frames.now (left_of breaker.old) breaker.old.heads rows.now breaker.new) }
{
    let mut rest = rows;
    'pages: loop {
        let count = breaker.close(alloc, frames, rest)?;
        let (_, more) = rest.split_at(count);
        rest = more;
        if breaker.is_over(rest) {
            return Ok(());
        }
    }
}
