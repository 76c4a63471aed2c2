//! What is kept of a live paragraph.

ghost use Rattle.std.specs.Prelude.{◌≡◌, true, false, [], OnOk, OnErr, MatchOption, IfSome, map, length, ◌<◌};
ghost use Rattle.std.specs.List.{remove};
ghost use Rattle.std.specs.Option.{option_copied, option_map_or};
ghost use Rattle.line_model.specs.Keys.{is_same_key};
ghost use Rattle.round_model.specs.Idle.{Live, keeps, with_key, without_oldest};
ghost use Rattle.line_model.specs.Lines.{lines_of};
ghost use Rattle.idle_queue.specs.Current.{is_current};

use line_model::{Formed, Key, Line};
use std::alloc::{AllocError, Global};
use std::marker::Model;

/// How many keys of a paragraph are kept at most.
const MOST_ROWS: usize = 10;

/// What is kept of a live paragraph: its number, the version that last touched it, and lines of its keys in the order
/// of their entry. Contracts see the keys, since the lines follow from them.
#[derive(Debug, Drop)]
pub(crate) struct LivePar {
    par: u32,
    revision: u32,
    rows: Vec<Formed>,
}

impl Model for LivePar {
    ghost use Rattle.std.specs.Prelude.{map};
    ghost use Rattle.std.specs.Coded.{codes};
    ghost use Rattle.line_model.specs.contracts.job.Formed as contract;
    ghost use Rattle.round_model.specs.Idle.{Live};

    ghost Value = { Live };

    ghost coded = { Prim.hlevel (codes, contract.the_row.coded) };

    ghost view = { λ l. record { par = l.par; revision = l.revision; keys = map (λ job. job.key) l.rows.items } };
}

impl LivePar {
    /// A live paragraph of which no lines are kept. It takes no memory.
    pub(crate) fn new(alloc: Global, par: u32, revision: u32) -> LivePar
        ensures { result ≡ record { par = par; revision = revision; keys = [] } }
    {
        LivePar {
            par,
            revision,
            rows: Vec::new(alloc),
        }
    }

    /// The version that last touched it.
    pub(crate) fn revision(&self) -> u32
        ensures { result ≡ self.now.revision }
    {
        self.revision
    }

    /// Makes this version the one that last touched it.
    pub(crate) fn touch(&mut self, version: u32)
        ensures { self.new ≡ record self.old { revision = version } }
    {
        self.revision = version;
    }

    /// Whether the lines of a key are kept.
    pub(crate) fn keeps(&self, key: &Key) -> bool
        ensures { result ≡ keeps self.now key.now }
    {
        'rows: for row in &self.rows {
            if is_same_key(key, &row.job().key) {
                return true;
            }
        }
        false
    }

    /// The lines of a key, lent, if they are kept.
    pub(crate) fn lines(&self, key: &Key) -> Option<&[Line]>
        ensures { MatchOption result (keeps self.now key.now ≡ false) (λ lines. lines.now ≡ lines_of key.now) }
    {
        'rows: for row in &self.rows {
            if is_same_key(key, &row.job().key) {
                return Some(row.lines());
            }
        }
        None
    }

    /// Keeps further lines. Beside ten others the oldest ones whose key isn't in use go.
    pub(crate) fn enter(&mut self, formed: Formed, in_use: Option<&Key>) -> Result<(), AllocError>
        ensures ok { OnOk result (self.new ≡ record self.old { keys = with_key (is_current (option_copied in_use.entry)) self.old.keys formed.key }) }
        ensures err { OnErr result (self.new ≡ self.old) }
    {
        let is_full = self.rows.len() == MOST_ROWS;
        self.rows.push(formed)?;
        if is_full {
            drop_oldest(&mut self.rows, in_use);
        }
        Ok(())
    }
}

// Drops the first lines whose key isn't in use.
fn drop_oldest(rows: &mut Vec<Formed>, in_use: Option<&Key>)
    ensures { map (λ job. job.key) rows.new.items ≡ without_oldest (is_current (option_copied in_use.entry)) (map (λ job. job.key) rows.old.items) }
{
    if let Some(place) = oldest(rows.as_slice(), in_use) {
        let _oldest = rows.remove(place);
    }
}

// The place of the first lines whose key isn't in use.
fn oldest(rows: &[Formed], in_use: Option<&Key>) -> Option<usize>
    ensures within { IfSome result (λ place. place < length rows.now) }
    ensures oldest { without_oldest (is_current (option_copied in_use.entry)) (map (λ job. job.key) rows.now)
        ≡ map (λ job. job.key) (option_map_or (λ place. remove rows.now place) result rows.now) }
{
    'rows: for (place, row) in rows.iter().enumerate() {
        if !is_current(in_use, &row.job().key) {
            return Some(place);
        }
    }
    None
}

// Whether a key is the one in use, if there is one.
fn is_current(in_use: Option<&Key>, key: &Key) -> bool
    ensures { result ≡ is_current (option_copied in_use.entry) key.now }
{
    match in_use {
        Some(current) => is_same_key(current, key),
        None => false,
    }
}

pub(crate) fn is_same_key(key: &Key, other: &Key) -> bool
    ensures { result ≡ is_same_key key.now other.now }
{
    key.is_same(other)
}
