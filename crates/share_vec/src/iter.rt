//! The items of a list in order.
ghost use Rattle.std.specs.Prelude.{◌≡◌};
ghost use Rattle.std.specs.Iterator.{YieldsFirstRef, item_count};

use crate::share_vec::ShareVec;
use std::marker::Model;

/// Goes over the items of a list in order, leaf by leaf. It is seen as the list of those that are left.
#[derive(Drop)]
pub struct Iter<'a, T> {
    list: &'a ShareVec<T>,
    leaf: &'a [T],
    next: usize,
}

impl<'a, T> Model for Iter<'a, T> {
    ghost use Rattle.std.specs.Prelude.{List, ◌++◌, ◌≤◌, drop, length};
    ghost use Rattle.std.specs.Coded.{coded_list};

    ghost Value = { List T };

    ghost coded = { coded_list T.code };

    // The next leaf begins at the place `next`.
    ghost view = { λ it. it.leaf.now ++ drop it.next it.list.now };

    ghost invariant = { λ it. it.next ≤ length it.list.now };
}

impl<'a, T> Iter<'a, T> {
    pub(crate) fn new(list: &'a ShareVec<T>) -> Iter<'a, T>
        ensures { result ≡ list.now }
    {
        Iter {
            list,
            leaf: &[],
            next: 0,
        }
    }
}

impl<'a, T> Iterator for Iter<'a, T> {
    type Item = &'a T;

    ghost next_gives = { YieldsFirstRef (λ rest. rest) };

    ghost remaining = { item_count (λ rest. rest) };

    fn next(&mut self) -> Option<&'a T> {
        if self.leaf.is_empty() && self.next < self.list.len() {
            let leaf = self.list.rest(self.next);
            self.next += leaf.len();
            self.leaf = leaf;
        }
        let (first, others) = self.leaf.split_first()?;
        self.leaf = others;
        Some(first)
    }
}
