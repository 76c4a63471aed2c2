//! The lines of a key, segment by segment. A segment is what stands between two breaks of the text.

ghost use Rattle.std.specs.Prelude.{◌≡◌, ◌++◌, ◌+◌, ◌<◌, ◌^◌, IfOk, OnOk, length};
ghost use Rattle.line_frames.specs.Further.{further, EndShort};
ghost use Rattle.line_model.specs.Lines.{end_of, lines_of, lines_of_segment, lines_of_segments, lines_of_units, segments};

use crate::line::line_length;
use break_units::{units, width};
use doc_model::List;
use line_model::{Formed, Job, Key, Line, TextUnit};
use std::alloc::{AllocError, Global};

/// The job with the lines of its key. It is the one call that cuts lines, and errs for want of memory alone.
///
/// A hidden key has no line. Else each segment of its text, which is what stands between two breaks (U+A), has one line
/// at least; the breaks are in no line. A line ends behind its segment, a run of spaces or a hyphen that no space follows,
/// at the last such place up to which it fits; else behind the last unit that fits, and behind one unit at least. The spaces
/// at the end of a line need no columns. The places of lines are in bytes of the key's text.
///
/// Each unit is looked at a bounded number of times, and no text is copied but that of the job.
pub fn form(alloc: Global, job: &Job) -> Result<Formed, AllocError>
    ensures { IfOk result (λ formed. formed ≡ job.now) }
{
    let lines = lines(alloc, &job.key)?;
    Ok(Formed::of(job.copy()?, lines))
}

/// The lines of a key.
#[tactic(auto, unfolding(line_model::specs::Lines::lines_of))]
fn lines(alloc: Global, key: &Key) -> Result<List<Line>, AllocError>
    ensures { IfOk result (λ lines. lines ≡ lines_of key.now) }
{
    let mut lines = List::new(alloc);
    if !key.hidden {
        push_segments(alloc, key, &mut lines)?;
    }
    Ok(lines)
}

/// Adds the lines of the text of a key.
fn push_segments(alloc: Global, key: &Key, lines: &mut List<Line>) -> Result<(), AllocError>
    ensures { OnOk result (lines.new ≡ lines.old ++ lines_of_segments key.now 0 (segments key.now.text)) }
{
    let mut from = 0;
    let mut rest = key.text.get();
    'segments: while let Some((segment, more)) = rest.split_once('\n') {
        push_segment(alloc, key, from, segment, lines)?;
        from += segment.len() as u32 + 1;
        rest = more;
    }
    push_segment(alloc, key, from, rest, lines)
}

/// Adds the lines of a segment, which begins at this place of the text.
fn push_segment(
    alloc: Global,
    key: &Key,
    from: u32,
    segment: &str,
    lines: &mut List<Line>,
) -> Result<(), AllocError>
    requires { from + length segment.now < 2 ^ 32 }
    ensures { OnOk result (lines.new ≡ lines.old ++ lines_of_segment key.now from segment.now) }
{
    if segment.is_empty() {
        return lines.push(Line { from, to: from });
    }
    let units = units(alloc, segment)?;
    push_units(key, from, units.get(), lines)
}

/// Adds the lines of the units of a segment, which begins at this place of the text.
fn push_units(
    key: &Key,
    from: u32,
    units: &[TextUnit],
    lines: &mut List<Line>,
) -> Result<(), AllocError>
    requires { EndShort from units.now }
    ensures { OnOk result (lines.new ≡ lines.old ++ lines_of_units key.now from (further from units.now)) }
{
    let mut place = from;
    let mut rest = units;
    'lines: while !rest.is_empty() {
        let (line, more) = rest.split_at(line_length(width(key, place), rest));
        let to = from + end_of(line);
        lines.push(Line { from: place, to })?;
        place = to;
        rest = more;
    }
    Ok(())
}

/// The place behind units, which is 0 where there are none.
fn end_of(units: &[TextUnit]) -> u32
    ensures { result ≡ end_of 0 units.now }
{
    match units {
        [] => 0,
        [.., last] => last.to,
    }
}
