//! Items that lie in two pieces, as those of a text under a cursor do.

ghost use Rattle.std.specs.Prelude.{◌≡◌, ◌+◌, ◌<◌, ◌^◌, [], ◌∷◌, ◌++◌, length, MatchOption};
ghost use Rattle.doc_model.specs.Parts as mark;
ghost use Rattle.spelling_model.specs.Spelling.{is_there, without_marks};

use doc_model::{Item, What};
use std::marker::Model;

/// The items that are left of a paragraph. It is seen as their list.
#[derive(Debug, Drop)]
pub struct ItemsLeft<'a> {
    first: &'a [Item],
    second: &'a [Item],
}

impl<'a> Model for ItemsLeft<'a> {
    ghost use Rattle.std.specs.Prelude.{List, ◌++◌, ◌+◌, ◌<◌, ◌^◌, length};
    ghost use Rattle.std.specs.Coded.{coded_list};
    ghost use Rattle.doc_model.specs.contracts.paragraph.Item as contract;
    ghost use Rattle.doc_model.specs.declared.paragraph.Item.{Item};

    ghost Value = { List Item };

    ghost coded = { coded_list contract.the_row.coded };

    ghost view = { λ left. left.first.now ++ left.second.now };

    ghost invariant = { λ left. length left.first.now + length left.second.now < 2 ^ 64 };
}

impl<'a> ItemsLeft<'a> {
    pub fn new(first: &'a [Item], second: &'a [Item]) -> ItemsLeft<'a>
        requires { length first.now + length second.now < 2 ^ 64 }
        ensures { result ≡ first.now ++ second.now }
    {
        ItemsLeft { first, second }
    }

    /// Takes the next item.
    pub fn take(&mut self) -> Option<&'a Item>
        ensures { MatchOption result (self.old ≡ []) (λ item. self.old ≡ item.now ∷ self.new) }
    {
        if let [item, behind @ ..] = self.first {
            self.first = behind;
            return Some(item);
        }
        let [item, behind @ ..] = self.second else {
            return None;
        };
        self.second = behind;
        Some(item)
    }

    /// Whether an item that is no mark is left.
    pub fn has_more(&self) -> bool
        ensures { result ≡ is_there (without_marks self.now) }
    {
        has_more(self.first) || has_more(self.second)
    }
}

/// Whether an item that is no mark is among these.
fn has_more(items: &[Item]) -> bool
    ensures { result ≡ is_there (without_marks items.now) }
{
    let mut left = items;
    'marks: while let [item, behind @ ..] = left {
        if !is_mark(item) {
            return true;
        }
        left = behind;
    }
    false
}

/// Whether an item is a mark.
pub fn is_mark(item: &Item) -> bool
    ensures { result ≡ mark.is_mark item.now }
{
    match &item.what {
        What::Mark(_) => true,
        _ => false,
    }
}
