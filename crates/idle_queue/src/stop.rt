//! The stops of the idle work, which the debt tells.

ghost use Rattle.std.specs.Prelude.{◌≡◌, ◌≤◌, if◌then◌else◌};
ghost use Rattle.doc_model.specs.declared.document.Document.{Document};
ghost use Rattle.round_model.specs.Stops.{stop_at, full_debt, debt_behind, paragraph_count};
ghost use Rattle.idle_queue.specs.FormTest.{is_form_at};
ghost use Rattle.idle_queue.specs.StopOf.{stop_of, places_passed};

/// The round whose pages a further one would leave as they are.
const LAST_ROUND: u32 = 1;

/// Where the idle work stands. Rounds, and places in the order in which paragraphs are set, are counted from 0.
#[derive(Debug, Clone, Copy, PartialEq, Eq)]
pub(crate) enum Stop {
    /// A paragraph is gathered.
    Gather { place: u32 },
    /// The lines of a paragraph are formed.
    Form { round: u32, place: u32 },
    /// The lines of a paragraph are placed.
    Place { round: u32, place: u32 },
    /// The pages are finished.
    Finish,
    /// Nothing is left to do.
    Settled,
}

/// The debt before the first stop of so many paragraphs: one stop to gather each of them, two for each in nine
/// rounds, and the last one.
pub(crate) fn full_debt(count: u32) -> u32
    requires { count ≤ 65536 }
    ensures { result ≡ full_debt count }
{
    19 * count + 1
}

/// The stop at a debt, for so many paragraphs.
pub(crate) fn stop_at(count: u32, debt: u32) -> Stop
    requires some { 1 ≤ count }
    requires few { count ≤ 65536 }
    requires owed { debt ≤ full_debt count }
    ensures { stop_of result ≡ stop_at count debt }
{
    if debt == 0 {
        return Stop::Settled;
    }
    if debt == 1 {
        return Stop::Finish;
    }
    let in_rounds = 18 * count + 1;
    if debt > in_rounds {
        let place = full_debt(count) - debt;
        return Stop::Gather { place };
    }
    let passed = in_rounds - debt;
    let round = passed / (2 * count);
    let place = passed % (2 * count) / 2;
    if passed % 2 == 0 {
        return Stop::Form { round, place };
    }
    Stop::Place { round, place }
}

/// The debt behind the stop at a debt. Behind the last stop of the last round only the finish is left.
pub(crate) fn debt_behind(count: u32, debt: u32) -> u32
    requires some { 1 ≤ count }
    requires few { count ≤ 65536 }
    requires owed { debt ≤ full_debt count }
    ensures { (doc : Document) → paragraph_count doc ≡ count → result ≡ debt_behind doc debt }
{
    match stop_at(count, debt) {
        Stop::Place { round, place } => {
            if round == LAST_ROUND && place + 1 == count {
                1
            } else {
                debt - 1
            }
        }
        Stop::Settled => 0,
        _ => debt - 1,
    }
}

/// How many paragraphs, in the order in which they are set, have the form stop of the present round behind them.
pub(crate) fn places_passed(count: u32, debt: u32) -> u32
    requires some { 1 ≤ count }
    requires few { count ≤ 65536 }
    requires owed { debt ≤ full_debt count }
    ensures { result ≡ places_passed count (stop_at count debt) }
{
    match stop_at(count, debt) {
        Stop::Gather { .. } => 0,
        Stop::Form { place, .. } => place,
        Stop::Place { place, .. } => place + 1,
        Stop::Finish => count,
        Stop::Settled => count,
    }
}

/// The debt behind the publish of lines of the paragraph at a place: less, where its form stop stands at the debt and
/// the key is the present one.
pub(crate) fn debt_entered(count: u32, debt: u32, place: usize, is_present: bool) -> u32
    requires some { 1 ≤ count }
    requires few { count ≤ 65536 }
    requires owed { debt ≤ full_debt count }
    ensures { (doc : Document) → paragraph_count doc ≡ count
        → result ≡ (if is_form_at place is_present (stop_at count debt) then debt_behind doc debt else debt) }
{
    if is_form_at(place, is_present, stop_at(count, debt)) {
        return debt_behind(count, debt);
    }
    debt
}

// Whether a stop is the form stop at this place, and the key is the present one.
fn is_form_at(place: usize, is_present: bool, stop: Stop) -> bool
    ensures { result ≡ is_form_at place is_present (stop_of stop) }
{
    match stop {
        Stop::Form { place: formed, .. } => formed as usize == place && is_present,
        _ => false,
    }
}
