//! Stacks.
ghost use Rattle.std.specs.Prelude.{◌≡◌, ◌∷◌, [], length, IfOk, OnOk, OnErr, MatchOption};

use sqlite_items::Items;
use std::alloc::{AllocError, Global};
use std::marker::Model;

/// A list that is seen from its top to its bottom: the item that was put on last is the first. It is kept in reverse, so that
/// an item is put on and taken off at once.
#[derive(Drop)]
pub struct Stack<T> {
    items: Vec<T>,
}

impl<T> Model for Stack<T> {
    ghost use Rattle.std.specs.Prelude.{List, reverse};
    ghost use Rattle.std.specs.Coded.{coded_list};

    ghost Value = { List T };

    ghost coded = { coded_list T.code };

    ghost view = { λ stack. reverse stack.items.items };
}

impl<T> Stack<T> {
    /// No items. It takes no memory.
    pub fn new(alloc: Global) -> Stack<T>
        ensures { result ≡ [] }
    {
        Stack {
            items: Vec::new(alloc),
        }
    }

    /// The items of a vector, the first on top. It takes no memory.
    pub fn from_vec(items: Vec<T>) -> Stack<T>
        ensures { result ≡ items.items }
    {
        let mut reversed = items;
        reversed.reverse();
        Stack { items: reversed }
    }

    /// How many items there are.
    pub fn len(&self) -> usize
        ensures { result ≡ length self.now }
    {
        self.items.len()
    }

    /// The item on top, which is taken off.
    pub fn pop(&mut self) -> Option<T>
        ensures { MatchOption result ((self.old ≡ []) × (self.new ≡ [])) (λ top. self.old ≡ top ∷ self.new) }
    {
        self.items.pop()
    }

    /// The items from the top to the bottom. It takes no memory.
    pub fn into_vec(self) -> Vec<T>
        ensures { result.items ≡ self }
    {
        let Stack { mut items } = self;
        items.reverse();
        items
    }
}

impl<T: Drop> Stack<T> {
    /// The items of a list, the first on top.
    pub fn from_items(alloc: Global, items: Items<T>) -> Result<Stack<T>, AllocError>
        ensures { IfOk result (λ stack. stack ≡ items) }
    {
        let mut items = items;
        let mut stack = Stack {
            items: Vec::with_capacity(alloc, items.len())?,
        };
        'items: while let Some(item) = items.pop() {
            stack.push(item)?;
        }
        Ok(stack)
    }

    /// Puts an item on top. Where there is no memory for it, all stays as it was.
    pub fn push(&mut self, item: T) -> Result<(), AllocError>
        ensures put { OnOk result (self.new ≡ item ∷ self.old) }
        ensures kept { OnErr result (self.new ≡ self.old) }
    {
        self.items.push(item)?;
        Ok(())
    }
}
