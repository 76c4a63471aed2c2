//! What a lock and its seats know, for contracts and proofs alone.
use crate::machine::{Entry, Machine};
use std::collections::LinkedList;
use std::snapshot::Snapshot;

/// The machine that a lock began with, how many seats it has, and how many entries its journal may have.
#[derive(Drop)]
pub struct Terms<M: Machine> {
    pub start: Snapshot<M>,
    pub seats: u32,
    pub limit: u32,
}

/// A seat's own number, how many it has yet to give, the numbers that were joined to it, and the history that it has seen.
/// The numbers yet to give are those from 1 to `left`. No value of it is made.
pub struct Known<M: Machine> {
    pub number: u32,
    pub left: u32,
    pub joined: LinkedList<u32>,
    pub seen: LinkedList<Entry<M>>,
}

/// Where a seat is in a call. No value of it is made.
pub enum Stage<M: Machine> {
    Resting,
    /// It has the turn and has not counted.
    Holding,
    /// It has the turn and has counted.
    Counted,
    /// Two seats have become this one.
    Met(Known<M>, Known<M>),
}

/// What a seat knows. No value of it is made.
pub struct View<M: Machine> {
    pub terms: Option<Terms<M>>,
    pub known: Known<M>,
    pub tries: u64,
    pub read: u64,
    pub stage: Stage<M>,
}
