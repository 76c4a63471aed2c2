//! What bytes begin with.
ghost use Rattle.std.specs.Prelude.{◌≡◌, ◌≢◌, ℕ, List, ◌++◌, MatchOption};

// The bytes after this front, if they begin with it.
pub(crate) fn after<'a>(bytes: &'a [u8], front: &str) -> Option<&'a [u8]>
    ensures { MatchOption result ((more : List ℕ) → bytes.now ≢ front.now ++ more) (λ rest. bytes.now ≡ front.now ++ rest.now) }
{
    bytes.strip_prefix(front.as_bytes())
}
