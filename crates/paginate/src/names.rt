//! Whether a name is the empty one.

ghost use Rattle.std.specs.Prelude.{◌≡◌, []};
ghost use Rattle.std.specs.Str.{bytes_eq};

use doc_model::Name;

/// Whether a name is the empty one.
pub fn is_nameless(name: &Name) -> bool
    ensures { result ≡ bytes_eq name.now [] }
{
    *name == Name::none(name.allocator())
}
