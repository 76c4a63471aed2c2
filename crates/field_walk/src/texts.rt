//! Sequences and variables.
ghost use Rattle.std.specs.Prelude.{◌≡◌, List, OnOk, option_copied, ◌++◌};
ghost use Rattle.field_model.specs.Gathered.{Event};
ghost use Rattle.field_walk.specs.Holds.{HoldsEvents};
ghost use Rattle.field_model.specs.Cut.{cut};
ghost use Rattle.std.specs.Prelude.{IfOk, [], ◌+◌, count_by, filter};
ghost use Rattle.field_model.specs.Gathered.{is_up_to, is_before};
ghost use Rattle.field_model.specs.Numbers.{shown_number};
ghost use Rattle.field_model.specs.Fields.{counted, assigned};
ghost use Rattle.field_model.specs.Shown.{sequence_number, set_last, value_at, later, last_of};

use crate::spots::{count_up_to, is_before, last_before};
use crate::walk::Walk;
use doc_model::{Format, Name, Txt};
use field_model::{Spot, VariableSet};
use number_text::{CutText, push_number};
use std::alloc::AllocError;

impl Walk {
    // How many sequence fields of a name are read up to a place, in the body or in notes.
    fn count_in(&self, in_note: bool, name: &Name, here: Spot) -> usize
        ensures { (all : List Event) → HoldsEvents self.now all → result ≡ count_by (λ spot. is_up_to spot here) (counted in_note name.now all) }
    {
        count_up_to(self.counted.get(in_note, name), here)
    }

    // How many sequence fields of a name are read up to a place.
    pub(crate) fn sequence_number(&self, name: &Name, here: Spot) -> Result<u64, AllocError>
        ensures { (all : List Event) → HoldsEvents self.now all → IfOk result (λ number. number ≡ sequence_number all name.now here) }
    {
        let body = self.count_in(false, name, here) as u64;
        let notes = self.count_in(true, name, here) as u64;
        let number = sum_of(body, notes)?;
        Ok(number)
    }

    // The field that sets a variable last before a place, in the body or in notes.
    fn set_in(&self, in_note: bool, name: &Name, here: Spot) -> Option<&VariableSet>
        ensures { (all : List Event) → HoldsEvents self.now all → option_copied result ≡ last_of (filter (λ set. is_before set.spot here) (assigned in_note name.now all)) }
    {
        last_before(self.assigned.get(in_note, name), here)
    }

    // The field that sets a variable last before a place.
    fn set_last(&self, name: &Name, here: Spot) -> Option<&VariableSet>
        ensures { (all : List Event) → HoldsEvents self.now all → option_copied result ≡ set_last all name.now here }
    {
        let body = self.set_in(false, name, here);
        let notes = self.set_in(true, name, here);
        later(body, notes)
    }

    // Adds the number of a sequence field of a name and a format at a place.
    pub(crate) fn push_counted(
        &self,
        out: &mut CutText,
        name: &Name,
        format: Format,
        here: Spot,
    ) -> Result<(), AllocError>
        ensures { (all : List Event) → HoldsEvents self.now all → OnOk result (out.new ≡ cut (out.old ++ shown_number format (sequence_number all name.now here))) }
    {
        let number = self.sequence_number(name, here)?;
        push_number(out, format, number)?;
        Ok(())
    }

    // Adds the value of a variable at a place, where it is set.
    pub(crate) fn push_value(
        &self,
        out: &mut CutText,
        name: &Name,
        here: Spot,
    ) -> Result<(), AllocError>
        ensures { (all : List Event) → HoldsEvents self.now all → OnOk result (out.new ≡ cut (out.old ++ value_at all name.now here)) }
    {
        match self.set_last(name, here) {
            Some(set) => push_text(out, &set.value),
            None => push_nothing(out),
        }
    }
}

// Of two fields that set a variable the one that is read later.
fn later<'a>(
    one: Option<&'a VariableSet>,
    other: Option<&'a VariableSet>,
) -> Option<&'a VariableSet>
    ensures { option_copied result ≡ later (option_copied one.entry) (option_copied other.entry) }
{
    match (one, other) {
        (None, other) => other,
        (Some(one), None) => Some(one),
        (Some(one), Some(other)) => {
            if is_before(one.spot, other.spot) {
                Some(other)
            } else {
                Some(one)
            }
        }
    }
}

// The sum of two counts.
fn sum_of(one: u64, other: u64) -> Result<u64, AllocError>
    ensures { IfOk result (λ sum. sum ≡ one + other) }
{
    one.checked_add(other).ok_or(AllocError)
}

// Adds nothing.
pub(crate) fn push_nothing(out: &mut CutText) -> Result<(), AllocError>
    ensures { OnOk result (out.new ≡ cut (out.old ++ [])) }
{
    let _full = out.is_full();
    Ok(())
}

// Adds a text.
pub(crate) fn push_text(out: &mut CutText, text: &Txt) -> Result<(), AllocError>
    ensures { OnOk result (out.new ≡ cut (out.old ++ text.now)) }
{
    out.push_str(text.get())?;
    Ok(())
}
