//! Which master page follows another.

ghost use Rattle.std.specs.Prelude.{◌≡◌, ℕ, ◌<◌, [], length, chars, IfSome, IfNone};
ghost use Rattle.std.specs.Str.{bytes_eq};
ghost use Rattle.style_model.specs.Masters.{next_master, first_master, place_of_master, AreMastersThere};

use doc_model::{Master, Name};

/// The master of a first page, which is the one of this name where there is one.
const STANDARD: &str = "Standard";

/// The place of the master that the next page has, counted from 0. `now` is the place of the master of the page before it,
/// and `None` stands for no page. A master is followed by the one of its next name, and by itself where that is empty. A
/// first page has the one named 'Standard', else the first. `None` where there is no master.
pub fn next_master(masters: &[Master], now: Option<usize>) -> Option<usize>
    requires in_range { IfSome now (λ place. place < length masters.now) }
    requires there { AreMastersThere masters.now }
    ensures next { result ≡ next_master masters.now now }
    ensures in_list { IfSome result (λ place. place < length masters.now) }
    ensures none { IfNone result (masters.now ≡ []) }
{
    match now {
        Some(place) => following(masters, place),
        None => first(masters),
    }
}

/// The place of the master of a first page, if there is a master.
fn first(masters: &[Master]) -> Option<usize>
    ensures { result ≡ first_master masters.now }
{
    if masters.is_empty() {
        return None;
    }
    match place_of(masters, STANDARD) {
        Some(place) => Some(place),
        None => Some(0),
    }
}

/// The place of the master behind the one at a place.
fn following(masters: &[Master], place: usize) -> Option<usize>
    requires { place < length masters.now }
    ensures { result ≡ next_master masters.now (Some place) }
{
    let next = masters[place].next.get();
    if next.is_empty() {
        return Some(place);
    }
    place_of(masters, next)
}

/// The place of the first master of this name.
fn place_of(masters: &[Master], name: &str) -> Option<usize>
    ensures { result ≡ place_of_master masters.now (chars name.now) }
{
    masters
        .iter()
        .position(|master| is_named(&master.name, name))
}

/// Whether a name is this text.
fn is_named(name: &Name, text: &str) -> bool
    ensures { result ≡ bytes_eq name.now (chars text.now) }
{
    name.get() == text
}
