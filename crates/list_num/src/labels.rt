//! The label of an item, from the levels of its style and their counters.

ghost use Rattle.std.specs.Prelude.{◌≡◌, ◌≤◌, ◌<◌, [], ◌∷◌, ◌++◌, IfOk, OnOk, find, ◌==◌, if◌then◌else◌};
ghost use Rattle.std.specs.Option.{option_copied};
ghost use Rattle.field_model.specs.Cut.{cut};
ghost use Rattle.field_model.specs.Labels.{no_label, item_label, shown_levels, shown_level, is_shown, is_empty_format};
ghost use Rattle.list_num.specs.Counters.{count_in, separator};

use crate::counters::{Counters, Step};
use doc_model::{Format, Label, LevelNumber, LevelWhat, ListLevel, Txt};
use number_text::{CutText, push_number};
use std::alloc::{AllocError, Global};

/// The label of a paragraph that has none. It takes no memory.
pub(crate) fn no_label(alloc: Global) -> Label
    ensures { result ≡ no_label }
{
    Label {
        full: Txt::none(alloc),
        plain: Txt::none(alloc),
    }
}

/// The label of a paragraph that its style's counters have counted: an item has one.
pub(crate) fn step_label(
    alloc: Global,
    levels: &[ListLevel],
    counters: &Counters,
    step: Step,
) -> Result<Label, AllocError>
    ensures { IfOk result (λ label. label ≡ (if step.item then item_label levels.now (count_in counters.now) step.level else no_label)) }
{
    if step.item {
        return item_label(alloc, levels, counters, step.level);
    }
    Ok(no_label(alloc))
}

/// The label of an item of a level.
fn item_label(
    alloc: Global,
    levels: &[ListLevel],
    counters: &Counters,
    own: u8,
) -> Result<Label, AllocError>
    ensures { IfOk result (λ label. label ≡ item_label levels.now (count_in counters.now) own) }
{
    let Some(level) = find_level(levels, own) else {
        return Ok(no_label(alloc));
    };
    match &level.what {
        LevelWhat::Bullet(bullet) => bullet_label(alloc, *bullet),
        LevelWhat::Number {
            format,
            prefix,
            suffix,
            start: _,
            display,
        } => {
            if is_empty(*format) {
                return Ok(no_label(alloc));
            }
            let plain = shown_levels(alloc, levels, counters, own, *display)?;
            numbered_label(alloc, prefix, plain, suffix)
        }
    }
}

fn find_level(levels: &[ListLevel], own: u8) -> Option<&ListLevel>
    ensures { option_copied result ≡ find (λ level. level.level == own) levels.now }
{
    'levels: for level in levels {
        if level.level.get() == own {
            return Some(level);
        }
    }
    None
}

fn bullet_label(alloc: Global, bullet: char) -> Result<Label, AllocError>
    ensures { IfOk result (λ label. label ≡ record { full = bullet ∷ []; plain = bullet ∷ [] }) }
{
    let mut full = CutText::new(alloc);
    full.push(bullet)?;
    let mut plain = CutText::new(alloc);
    plain.push(bullet)?;
    Ok(Label {
        full: full.into_txt(),
        plain: plain.into_txt(),
    })
}

/// The numbers with what stands before and behind them.
fn numbered_label(
    alloc: Global,
    prefix: &Txt,
    plain: Txt,
    suffix: &Txt,
) -> Result<Label, AllocError>
    ensures full { IfOk result (λ label. label.full ≡ cut (prefix.now ++ (plain ++ suffix.now))) }
    ensures plain { IfOk result (λ label. label.plain ≡ plain) }
{
    let mut full = CutText::new(alloc);
    full.push_str(prefix.get())?;
    full.push_str(plain.get())?;
    full.push_str(suffix.get())?;
    let full = full.into_txt();
    Ok(Label { full, plain })
}

/// The numbers that a label of an own level shows, with full stops between them.
fn shown_levels(
    alloc: Global,
    levels: &[ListLevel],
    counters: &Counters,
    own: u8,
    display: LevelNumber,
) -> Result<Txt, AllocError>
    ensures { IfOk result (λ text. text ≡ cut (shown_levels levels.now (count_in counters.now) own display)) }
{
    let mut out = CutText::new(alloc);
    let mut is_first = true;
    'levels: for level in levels {
        if !is_shown(level, own, display) {
            continue;
        }
        push_next(&mut out, level, counters, is_first)?;
        is_first = false;
    }
    Ok(out.into_txt())
}

/// Whether levels of this format have no numbers.
fn is_empty(format: Format) -> bool
    ensures { result ≡ is_empty_format format }
{
    format == Format::Empty
}

/// Whether a label of an own level shows the number of a level.
fn is_shown(level: &ListLevel, own: u8, display: LevelNumber) -> bool
    ensures { result ≡ is_shown own display level.now }
{
    let number = level.level.get();
    if number > own {
        return false;
    }
    if own >= number + display.get() {
        return false;
    }
    match &level.what {
        LevelWhat::Bullet(_) => false,
        LevelWhat::Number { format, .. } => !is_empty(*format),
    }
}

/// Adds the number of a level, and a full stop before it unless it is the first.
fn push_next(
    out: &mut CutText,
    level: &ListLevel,
    counters: &Counters,
    is_first: bool,
) -> Result<(), AllocError>
    ensures { OnOk result (out.new ≡ cut (out.old ++ (separator is_first ++ shown_level (count_in counters.now) level.now))) }
{
    if is_first {
        return push_level(out, level, counters);
    }
    out.push('.')?;
    push_level(out, level, counters)
}

fn push_level(out: &mut CutText, level: &ListLevel, counters: &Counters) -> Result<(), AllocError>
    ensures { OnOk result (out.new ≡ cut (out.old ++ shown_level (count_in counters.now) level.now)) }
{
    let index = usize::from(level.level.get()) - 1;
    let count = counters[index];
    match &level.what {
        LevelWhat::Bullet(_) => out.push_str(""),
        LevelWhat::Number { format, start, .. } => {
            let number = u64::from(*start) + u64::from(count.saturating_sub(1));
            push_number(out, *format, number)
        }
    }
}
