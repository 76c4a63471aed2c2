//! What items and characters are.
ghost use Rattle.std.specs.Prelude.{◌≡◌, ◌<◌, vec_len, remove};
ghost use Rattle.load_model.specs.Content as content;
ghost use Rattle.item_spaces.specs.Marks.{is_mark_what};

use doc_model::{Item, What};

/// Whether what an item is is a mark.
pub(crate) fn is_mark(what: &What) -> bool
    ensures { result ≡ is_mark_what what.now }
{
    matches!(what, What::Mark(_))
}

/// Whether a character is white space of XML: tab, line feed, carriage return or space.
pub fn is_white(c: char) -> bool
    ensures { result ≡ content.is_white c }
{
    matches!(c, ' ' | '\t' | '\n' | '\r')
}

/// Takes an item out.
pub(crate) fn drop_item(items: &mut Vec<Item>, at: usize)
    requires { at < vec_len items.old }
    ensures { items.new.items ≡ remove items.old.items at }
{
    let _ = items.remove(at);
}
