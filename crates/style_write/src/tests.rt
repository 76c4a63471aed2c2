//! The one spelling of lengths, by hand: millionths of an inch, rounded up.

use crate::push_length;
use doc_model::Length;
use std::alloc::{AllocError, Global};

/// Numbers of units and how they are written.
const LENGTHS: &[(i32, &str)] = &[
    (0, "0.000000in"),
    (1, "0.000002in"),
    (914_400, "1.000000in"),
    (-457_200, "-0.500000in"),
    (360_000, "0.393701in"),
    (100_000_000, "109.361330in"),
    (-100_000_000, "-109.361330in"),
];

/// Whether a length is written so.
fn is_written(alloc: Global, units: i32, wanted: &str) -> Result<bool, AllocError> {
    let Some(length) = Length::new(units) else {
        return Ok(false);
    };
    let mut out = String::new(alloc);
    push_length(&mut out, length)?;
    Ok(out.as_str() == wanted)
}

/// Whether all are.
fn are_written(alloc: Global) -> Result<bool, AllocError> {
    for (units, wanted) in LENGTHS {
        if !is_written(alloc, *units, wanted)? {
            return Ok(false);
        }
    }
    Ok(true)
}

#[test]
fn lengths_have_one_spelling(rt: HostRuntime) -> Result<(), AllocError> {
    assert!(rt; are_written(rt.alloc())?);
    Ok(())
}
