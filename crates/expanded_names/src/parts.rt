//! The parts of names.

ghost use Rattle.std.specs.Prelude.{◌≡◌, ℕ, List, chars, codes, ◌&&◌, if◌then◌else◌, Some, None, option_map, IsTrue, nat_lt};
ghost use Rattle.std.specs.List.{list_all};
ghost use Rattle.std.specs.Str.{bytes_eq, IsUtf8};
ghost use Rattle.load_model.specs.Names.{cut_name, can_be_declared, declared_by, is_declaration};
ghost use Rattle.expanded_names.specs.Scope.{bindings_for};

/// The prefix of names of declarations, and the name of the declaration of names without a prefix.
pub(crate) const XMLNS: &str = "xmlns";

/// The prefix that needs no declaration.
pub(crate) const XML: &str = "xml";

/// Whether a text is this word of ASCII characters.
pub(crate) fn is(text: &str, word: &str) -> bool
    requires { IsTrue (list_all (λ byte. nat_lt byte 128) word.now) }
    ensures { result ≡ bytes_eq (chars text.now) word.now }
{
    text == word
}

/// A name cut at its first colon: the prefix, if there is a colon, and the local name.
pub(crate) fn cut(name: &str) -> (Option<&str>, &str)
    ensures { record { prefix = option_map (λ prefix. chars prefix.now) result.0; local_name = chars result.1.now } ≡ cut_name (chars name.now) }
{
    match name.split_once(':') {
        Some((prefix, local_name)) => (Some(as_text(prefix)), as_text(local_name)),
        None => (None, name),
    }
}

/// The same text.
pub(crate) fn as_text(text: &str) -> &str
    ensures same { result.now ≡ text.now }
    ensures utf8 { IsUtf8 text.now }
{
    text
}

/// Whether a prefix can be declared.
pub(crate) fn can_be_declared(prefix: &str) -> bool
    ensures { result ≡ can_be_declared (chars prefix.now) }
{
    if is(prefix, "") {
        return false;
    }
    if is(prefix, XML) {
        return false;
    }
    !is(prefix, XMLNS)
}

/// The prefix that an attribute of this name declares, if it declares one; the empty one stands for names without a prefix.
pub(crate) fn declared(name: &str) -> Option<&str>
    ensures { (value : List ℕ) → declared_by (record { name = chars name.now; value = value }) ≡ bindings_for (option_map (λ prefix. chars prefix.now) result) value }
{
    if is(name, XMLNS) {
        return Some("");
    }
    let (prefix, local_name) = cut(name);
    match prefix {
        Some(prefix) => declared_behind(prefix, local_name),
        None => None,
    }
}

/// The prefix that is declared by a name with this prefix and local name.
fn declared_behind<'a>(prefix: &str, local_name: &'a str) -> Option<&'a str>
    ensures { option_map (λ one. chars one.now) result ≡ (if bytes_eq (chars prefix.now) (codes "xmlns") && can_be_declared (chars local_name.now) then Some (chars local_name.now) else None) }
{
    if !is(prefix, XMLNS) {
        return None;
    }
    if can_be_declared(local_name) {
        return Some(local_name);
    }
    None
}
