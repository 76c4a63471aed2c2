//! Names and single characters.
ghost use Rattle.std.specs.Prelude.{◌≡◌, chars, length};
ghost use Rattle.std.specs.Option.{option_map};
ghost use Rattle.load_model.specs.Fields as fields;
ghost use Rattle.load_model.specs.Values as values;

/// The most characters of a name.
const LONGEST_NAME: usize = 1024;

// How many characters a text has.
fn character_count(text: &str) -> usize
    ensures { result ≡ length (chars text.now) }
{
    text.chars().count()
}

/// A name that may be empty, of at most 1024 characters.
pub fn name_or_none(text: &str) -> Option<&str>
    ensures { option_map (λ name. chars name.now) result ≡ values.name_or_none (chars text.now) }
{
    if character_count(text) > LONGEST_NAME {
        return None;
    }
    Some(text)
}

/// A name: a text of at most 1024 characters, and not empty.
#[tactic(auto, using(crate::proofs::Names::name_empty, crate::proofs::Names::name_some))]
pub fn name(text: &str) -> Option<&str>
    ensures { option_map (λ name. chars name.now) result ≡ values.name (chars text.now) }
{
    if text.is_empty() {
        return None;
    }
    name_or_none(text)
}

/// The name of something that others refer to: the empty one, which is none, or a name where it is the first of that name.
#[tactic(auto, using(crate::proofs::Names::own_empty, crate::proofs::Names::own_first, crate::proofs::Names::own_later))]
pub fn own_name(is_first: bool, text: &str) -> Option<&str>
    ensures { option_map (λ name. chars name.now) result ≡ fields.own_name is_first (chars text.now) }
{
    if text.is_empty() {
        return Some(text);
    }
    if is_first {
        return name(text);
    }
    None
}

/// The character of a text that has just one.
pub fn one_character(text: &str) -> Option<char>
    ensures { result ≡ values.one_character (chars text.now) }
{
    let mut letters = text.chars();
    let letter = letters.next()?;
    match letters.next() {
        None => Some(letter),
        Some(_) => None,
    }
}
