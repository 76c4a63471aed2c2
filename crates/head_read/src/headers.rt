//! Headers and footers.
ghost use Rattle.std.specs.Prelude.{◌≡◌, ◌∷◌, [], map, option_to_list, IfOk};
ghost use Rattle.load_model.specs.Headers.{head_elements, head_of};
ghost use Rattle.load_model.specs.Styles as styles;
ghost use Rattle.sheet_names.specs.Known.{Knows};
ghost use Rattle.head_read.specs.Heads.{HeadersAre};

use crate::paragraphs::{Heads, first_paragraphs, read_paragraphs};
use element_parts::{LeftOut, attributes_out, first};
use load_model::{Element, Tag};
use sheet_names::Names;
use sheet_values::children_left;
use std::alloc::{AllocError, Global};

/// The header or footer of a master: the first.
pub(crate) fn read_head(
    alloc: Global,
    names: &Names,
    which: Tag,
    master: &Element,
) -> Result<Heads, AllocError>
    ensures { IfOk result (λ read. (known : styles.Names) → Knows names.now known → HeadersAre read known (option_to_list (head_of which master.now))) }
{
    match first(which, master) {
        Some(header) => read_header(alloc, names, header),
        None => Ok(Heads::none(alloc)),
    }
}

// A header.
fn read_header(alloc: Global, names: &Names, header: &Element) -> Result<Heads, AllocError>
    ensures { IfOk result (λ read. (known : styles.Names) → Knows names.now known → HeadersAre read known (header.now ∷ [])) }
{
    let elements = head_elements(alloc, header)?;
    let elements = elements.as_slice();
    let Heads {
        pars,
        left,
        too_long,
    } = read_paragraphs(alloc, names, elements)?;
    let own = LeftOut::nothing()
        .both(attributes_out(&[], header))
        .both(children_left(elements.len(), header))
        .both(left);
    Ok(Heads {
        pars,
        left: LeftOut::nothing().both(own),
        too_long,
    })
}

// The paragraphs of a header that are read.
#[tactic(auto, using(element_parts::proofs::Inner::elems_of_turns))]
fn head_elements(alloc: Global, header: &Element) -> Result<Vec<&Element>, AllocError>
    ensures { IfOk result (λ found. map (λ one. one.now) found.items ≡ head_elements header.now) }
{
    first_paragraphs(alloc, header.nodes.turns())
}
