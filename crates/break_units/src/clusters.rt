//! The units of a text.

ghost use Rattle.std.specs.Prelude.{◌≡◌, ◌+◌, ◌<◌, ◌^◌, length, IfOk};
ghost use Rattle.line_model.specs.Units.{class_of, unit_at, units_at};

use doc_model::List;
use line_model::{TextUnit, UnitClass};
use std::alloc::{AllocError, Global};
use unicode_segmentation::UnicodeSegmentation;
use unicode_width::UnicodeWidthStr;

/// The units of a text: its extended grapheme clusters in order (UAX 29), with their places in bytes, their columns in a
/// terminal and their class. It looks at each byte of the text a bounded number of times.
pub fn units(alloc: Global, text: &str) -> Result<List<TextUnit>, AllocError>
    requires short { length text.now < 2 ^ 32 }
    ensures { IfOk result (λ units. units ≡ units_at 0 text.now) }
{
    let mut units = List::new(alloc);
    let mut from = 0;
    for cluster in text.graphemes(true) {
        let unit = unit_at(from, cluster);
        units.push(unit)?;
        from = unit.to;
    }
    Ok(units)
}

/// The unit that a cluster is at a place.
fn unit_at(from: u32, cluster: &str) -> TextUnit
    requires { from + length cluster.now < 2 ^ 32 }
    ensures { result ≡ unit_at from cluster.now }
{
    TextUnit {
        from,
        to: from + cluster.len() as u32,
        columns: cluster.width() as u32,
        class: class_of(cluster),
    }
}

/// The class of a cluster.
fn class_of(cluster: &str) -> UnitClass
    ensures { result ≡ class_of cluster.now }
{
    match cluster {
        " " | "\t" => UnitClass::Space,
        "-" => UnitClass::Hyphen,
        _ => UnitClass::Other,
    }
}
