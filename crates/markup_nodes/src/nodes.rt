//! What an element holds: elements, and the runs of characters around them.

ghost use Rattle.std.specs.Prelude.{◌≡◌, [], ◌∷◌, ◌++◌, ◌<◌, chars, length, slice_get, Some, OnOk, OnErr, IsTrue, ◌↔◌};
ghost use Rattle.markup_nodes.specs.Node.{Element, Char};
ghost use Rattle.markup_nodes.specs.Nodes.{char_nodes, nodes_of, leading, elems, turns_of};

use crate::words::Word;
use std::alloc::{AllocError, Global};
use std::marker::Model;

/// An element and the characters behind it, up to the next one.
#[derive(Debug, Drop)]
pub struct Turn<T> {
    /// The element.
    pub elem: T,
    /// The characters behind it.
    pub after: Word,
}

/// Elements and characters in their order. Contracts see the list of them; a character takes as many bytes as it has.
#[derive(Debug, Drop)]
pub struct Nodes<T> {
    first: Word,
    turns: Vec<Turn<T>>,
}

impl<T> Model for Nodes<T> {
    ghost use Rattle.std.specs.Prelude.{List};
    ghost use Rattle.std.specs.Coded.{coded_list};
    ghost use Rattle.markup_nodes.specs.Node.{Node, node_code};
    ghost use Rattle.markup_nodes.specs.Nodes.{nodes_of};

    ghost Value = { List (Node T) };

    ghost coded = { coded_list (node_code T.code) };

    ghost view = { λ n. nodes_of n.first n.turns.items };
}

impl<T> Nodes<T> {
    /// No node. It takes no memory.
    pub fn new(alloc: Global) -> Nodes<T>
        ensures { result ≡ [] }
    {
        Nodes {
            first: Word::new(alloc),
            turns: Vec::new(alloc),
        }
    }

    /// The nodes of a first run, and of elements with the characters behind each. It takes no memory.
    pub fn from_parts(first: Word, turns: Vec<Turn<T>>) -> Nodes<T>
        ensures { result ≡ nodes_of first turns.items }
    {
        Nodes { first, turns }
    }

    /// The characters before the first element, and the elements with the characters behind each. It takes no memory.
    pub fn into_parts(self) -> (Word, Vec<Turn<T>>)
        ensures { nodes_of result.0 result.1.items ≡ self }
    {
        let Nodes { first, turns } = self;
        (first, turns)
    }

    /// The characters before the first element, lent.
    pub fn first(&self) -> &str
        ensures { chars result.now ≡ leading self.now }
    {
        self.first.get()
    }

    /// Each element with the characters behind it, lent.
    pub fn turns(&self) -> &[Turn<T>]
        ensures { result.now ≡ turns_of self.now }
    {
        self.turns.as_slice()
    }

    /// How many elements there are.
    pub fn len(&self) -> usize
        ensures { result ≡ length (elems self.now) }
    {
        self.turns.len()
    }

    /// Whether there is no node, neither an element nor a character.
    pub fn is_empty(&self) -> bool
        ensures { IsTrue result ↔ (self.now ≡ []) }
    {
        if !self.turns.is_empty() {
            return false;
        }
        self.first.is_empty()
    }

    /// An element by its number among the elements, from 0.
    pub fn elem(&self, at: usize) -> &T
        requires { at < length (elems self.now) }
        ensures { slice_get (elems self.now) at ≡ Some result.now }
    {
        &self.turns[at].elem
    }

    /// Adds a run of characters at the end. For want of memory the nodes stay as they were.
    pub fn push_str(&mut self, text: &str) -> Result<(), AllocError>
        ensures ok { OnOk result (self.new ≡ self.old ++ char_nodes (chars text.now)) }
        ensures err { OnErr result (self.new ≡ self.old) }
    {
        match self.turns.last_mut() {
            None => self.first.push_str(text),
            Some(turn) => turn.after.push_str(text),
        }
    }

    /// Adds a character at the end. For want of memory the nodes stay as they were.
    pub fn push(&mut self, c: char) -> Result<(), AllocError>
        ensures ok { OnOk result (self.new ≡ self.old ++ Char c ∷ []) }
        ensures err { OnErr result (self.new ≡ self.old) }
    {
        match self.turns.last_mut() {
            None => self.first.push(c),
            Some(turn) => turn.after.push(c),
        }
    }
}

impl<T: Drop> Nodes<T> {
    /// Adds an element at the end. For want of memory the nodes stay as they were, and the element is let go.
    pub fn push_elem(&mut self, alloc: Global, elem: T) -> Result<(), AllocError>
        ensures ok { OnOk result (self.new ≡ self.old ++ Element elem ∷ []) }
        ensures err { OnErr result (self.new ≡ self.old) }
    {
        // Else the first element would make room for four.
        if self.turns.is_empty() {
            self.turns.reserve_exact(1)?;
        }
        self.turns.push(Turn {
            elem,
            after: Word::new(alloc),
        })?;
        Ok(())
    }
}
