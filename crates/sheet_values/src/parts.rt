//! Parts of an element that may be absent.
ghost use Rattle.std.specs.Prelude.{◌≡◌, length, option_to_list};
ghost use Rattle.std.specs.Option.{option_map};
ghost use Rattle.load_model.specs.Left as left;
ghost use Rattle.load_model.specs.Left.{children};
ghost use Rattle.load_model.specs.Styles as styles;
ghost use Rattle.element_parts.specs.Shown.{shown};

use element_parts::LeftOut;
use load_model::{Attribute, Element};

/// The attributes of a part, if it is there.
pub fn part_attributes(part: Option<&Element>) -> &[Attribute]
    ensures { result.now ≡ styles.part_attributes (option_map (λ element. element.now) part.entry) }
{
    match part {
        Some(element) => element.attributes.get(),
        None => &[],
    }
}

/// How many elements a part is: one, if it is there.
pub fn part_count(part: Option<&Element>) -> usize
    ensures { result ≡ length (option_to_list (option_map (λ element. element.now) part.entry)) }
{
    match part {
        Some(_) => 1,
        None => 0,
    }
}

/// What is left out among the elements that an element holds, where so many are read.
pub fn children_left(read: usize, element: &Element) -> LeftOut
    ensures { result ≡ shown (left.all_but read (children element.now)) }
{
    LeftOut::elements(element.nodes.len().saturating_sub(read))
}
