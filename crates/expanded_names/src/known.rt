//! The names that are known.

ghost use Rattle.std.specs.Prelude.{◌≡◌, ◌&&◌, find, map, chars, option_map};
ghost use Rattle.std.specs.Str.{bytes_eq};
ghost use Rattle.load_model.specs.Names.{what_is, known_tags, known_keys};
ghost use Rattle.expanded_names.specs.Rows.{tag_rows, key_rows};

use load_model::{KNOWN_KEYS, KNOWN_TAGS, Key, Tag};

/// What an element of this namespace and local name is, if it has a rule.
pub fn tag_named(namespace: &str, local_name: &str) -> Option<Tag>
    ensures { result ≡ what_is (record { namespace = chars namespace.now; local_name = chars local_name.now }) known_tags }
{
    tag_of_row(tags(), namespace, local_name)
}

/// What an attribute of this namespace and local name is, if it has a rule or isn't counted.
pub fn key_named(namespace: &str, local_name: &str) -> Option<Key>
    ensures { result ≡ what_is (record { namespace = chars namespace.now; local_name = chars local_name.now }) known_keys }
{
    key_of_row(keys(), namespace, local_name)
}

/// The rows of tags.
fn tags() -> &'static [(&'static str, &'static str, Tag)]
    ensures { map (λ row. (row.0.now, row.1.now, row.2)) result.now ≡ tag_rows }
{
    KNOWN_TAGS
}

/// The rows of keys.
fn keys() -> &'static [(&'static str, &'static str, Key)]
    ensures { map (λ row. (row.0.now, row.1.now, row.2)) result.now ≡ key_rows }
{
    KNOWN_KEYS
}

/// What the first row of a namespace and local name says.
fn tag_of_row(rows: &[(&str, &str, Tag)], namespace: &str, local_name: &str) -> Option<Tag>
    ensures { result ≡ option_map (λ row. row.2) (find (λ row. bytes_eq row.1.now local_name.now && bytes_eq row.0.now namespace.now) rows.now) }
{
    rows.iter()
        .find(|row| row.1 == local_name && row.0 == namespace)
        .map(|row| row.2)
}

/// What the first row of a namespace and local name says.
fn key_of_row(rows: &[(&str, &str, Key)], namespace: &str, local_name: &str) -> Option<Key>
    ensures { result ≡ option_map (λ row. row.2) (find (λ row. bytes_eq row.1.now local_name.now && bytes_eq row.0.now namespace.now) rows.now) }
{
    rows.iter()
        .find(|row| row.1 == local_name && row.0 == namespace)
        .map(|row| row.2)
}
