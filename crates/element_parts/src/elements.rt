//! What an element is and holds.
ghost use Rattle.std.specs.Prelude.{◌≡◌, chars};
ghost use Rattle.std.specs.Option.{option_map};
ghost use Rattle.load_model.specs.Left as left;
ghost use Rattle.load_model.specs.Left.{children};
ghost use Rattle.load_model.specs.Styles as styles;
ghost use Rattle.element_parts.specs.Turns.{first_turn};

use load_model::{Element, Key, Tag};
use markup_nodes::Turn;
use read_values::{name, value_of};

/// Whether two tags are the same.
pub fn is_same_tag(one: Tag, other: Tag) -> bool
    ensures { result ≡ left.is_same_tag one other }
{
    one == other
}

/// Whether an element is of a tag.
pub fn is(wanted: Tag, element: &Element) -> bool
    ensures { result ≡ left.is wanted element.now }
{
    is_same_tag(element.tag, wanted)
}

/// The first element of a tag that an element holds.
#[tactic(auto, using(crate::proofs::Inner::first_of_turns))]
pub fn first(wanted: Tag, element: &Element) -> Option<&Element>
    ensures { option_map (λ found. found.now) result ≡ left.first wanted (children element.now) }
{
    first_turn(wanted, element.nodes.turns())
}

// The first element of a tag among elements with the characters behind them.
fn first_turn(wanted: Tag, turns: &[Turn<Element>]) -> Option<&Element>
    ensures { option_map (λ found. found.now) result ≡ first_turn wanted turns.now }
{
    'turns: for turn in turns {
        if is(wanted, &turn.elem) {
            return Some(&turn.elem);
        }
    }
    None
}

/// The name that a style, list style, layout or master states ('style:name').
pub fn name_of(element: &Element) -> Option<&str>
    ensures { option_map (λ name. chars name.now) result ≡ styles.name_of element.now }
{
    match value_of(Key::Name, element.attributes.get()) {
        Some(text) => name(text),
        None => None,
    }
}
