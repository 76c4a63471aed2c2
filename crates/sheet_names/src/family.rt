//! The families and names of styles.
ghost use Rattle.std.specs.Prelude.{◌≡◌, [], MatchOption};
ghost use Rattle.load_model.specs.Styles as styles;
ghost use Rattle.sheet_names.specs.Keys.{States};

use doc_model::Family;
use element_parts::name_of;
use load_model::{Element, Key};
use read_values::{family, value_of};

/// The family and name that a style states.
#[derive(Clone, Copy)]
pub struct StyleKey<'a> {
    /// 'style:family'.
    pub family: Family,
    /// 'style:name'.
    pub name: &'a str,
}

/// The family that a style states.
pub fn family_of(element: &Element) -> Option<Family>
    ensures { result ≡ styles.family_of element.now }
{
    match value_of(Key::Family, element.attributes.get()) {
        Some(text) => family(text),
        None => None,
    }
}

/// The family and name that a style states, if it states both.
pub fn style_key(element: &Element) -> Option<StyleKey<'_>>
    ensures { MatchOption result (styles.style_name element.now ≡ []) (λ key. States key element.now) }
{
    match family_of(element) {
        Some(family) => match name_of(element) {
            Some(name) => Some(StyleKey { family, name }),
            None => None,
        },
        None => None,
    }
}
