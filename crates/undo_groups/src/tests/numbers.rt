//! A list of numbers as a target. It also draws numbers that it never held before: the next one is no part of
//! its value, so undo leaves it.
ghost use Rattle.std.specs.Prelude.{◌≡◌, ℕ, ◌+◌, ◌∷◌, List, length, IfOk};

use crate::fault::ExpandFault;
use crate::invertible::Invertible;
use std::alloc::{AllocError, Global};
use std::fmt;
use std::marker::Model;

#[derive(Clone, Copy, Debug)]
pub enum Op {
    Set { at: usize, number: u32 },
    Insert { at: usize, number: u32 },
    Move { from: usize, to: usize },
    Draw,
}

#[derive(Clone, Copy, Debug, PartialEq, Eq)]
pub enum Prim {
    Set { at: usize, number: u32 },
    Insert { at: usize, number: u32 },
    Remove { at: usize },
}

#[derive(Clone, Copy, Debug, PartialEq, Eq)]
pub enum Why {
    PastEnd,
    NoneLeft,
}

impl fmt::Display for Why {
    fn fmt<W: fmt::Write>(&self, f: &mut fmt::Formatter<W>) -> fmt::Result {
        f.write_str(match self {
            Why::PastEnd => "past the end",
            Why::NoneLeft => "no number is left",
        })
    }
}

#[derive(Debug, Drop)]
pub struct Numbers {
    items: Vec<u32>,
    next: u64,
    alloc: Global,
}

impl Model for Numbers {
    ghost use Rattle.std.specs.Prelude.{ℕ, List};

    ghost Value = { List ℕ × ℕ };

    ghost view = { λ n. (n.items.items, n.next) };
}

impl Numbers {
    pub fn from_slice(alloc: Global, items: &[u32]) -> Result<Numbers, AllocError> {
        Ok(Numbers {
            items: Vec::from_slice(alloc, items)?,
            next: 100,
            alloc,
        })
    }

    pub fn items(&self) -> &[u32]
        ensures { result.now ≡ self.now.0 }
    {
        self.items.as_slice()
    }
}

impl Invertible for Numbers {
    ghost use Rattle.std.specs.Prelude.{◌≡◌, ℕ, ◌+◌, ◌-◌, ◌≤◌, ◌<◌, ◌^◌, max, List, [], ◌∷◌, length, nat_lt, nat_le, Ok, Err, slice_index, slice_set, insert, remove, if◌then◌else◌};
    ghost use Rattle.undo_groups.specs.declared.tests.numbers.Op.TheVariants as op;
    ghost use Rattle.undo_groups.specs.declared.tests.numbers.Prim.TheVariants as prim;
    ghost use Rattle.undo_groups.specs.declared.tests.numbers.Why.TheVariants as why;

    type Op = Op;

    type Prim = Prim;

    type Why = Why;

    ghost Value = { List ℕ };

    ghost value = { λ s. s.0 };

    ghost meaning = { record {
      fits = λ v p. elim p [ prim.Set at n ↦ at < length v | prim.Insert at n ↦ at ≤ length v | prim.Remove at ↦ at < length v ];
      changed = λ v p. elim p [ prim.Set at n ↦ slice_set v at n | prim.Insert at n ↦ insert v at n | prim.Remove at ↦ remove v at ];
      answer = λ v p. elim p [ prim.Set at n ↦ prim.Set at (slice_index v at) | prim.Insert at n ↦ prim.Remove at | prim.Remove at ↦ prim.Insert at (slice_index v at) ];
    } };

    ghost expansion = { λ s o. elim o [
      | op.Set at n ↦ (if nat_lt at (length s.0) then Ok (prim.Set at n ∷ []) else Err why.PastEnd)
      | op.Insert at n ↦ (if nat_le at (length s.0) then Ok (prim.Insert at n ∷ []) else Err why.PastEnd)
      | op.Move from to ↦ (if nat_lt (max from to) (length s.0) then Ok (prim.Remove from ∷ (prim.Insert to (slice_index s.0 from) ∷ [])) else Err why.PastEnd)
      | op.Draw ↦ (if nat_lt s.1 (2 ^ 32) then Ok (prim.Insert (length s.0) s.1 ∷ []) else Err why.NoneLeft)
    ] };

    ghost after = { λ s p. elim p [
      | prim.Set at n ↦ (slice_set s.0 at n, s.1)
      | prim.Insert at n ↦ (insert s.0 at n, max s.1 (n + 1))
      | prim.Remove at ↦ (remove s.0 at, s.1)
    ] };

    ghost use Rattle.std.specs.Prelude.{refl};
    ghost use Rattle.undo_groups.specs.ListEdits.{remove-insert, insert-remove, set-set, insert-fits, remove-fits, set-fits};

    ghost value_after = { λ s. elim [ prim.Set at n ↦ λ h. refl | prim.Insert at n ↦ λ h. refl | prim.Remove at ↦ λ h. refl ] };

    ghost answer_fits = { λ v. elim [ prim.Set at n ↦ λ h. set-fits n v at h | prim.Insert at n ↦ λ h. insert-fits n v at h | prim.Remove at ↦ λ h. remove-fits v at h ] };

    ghost answer_restores = { λ v. elim [ prim.Set at n ↦ λ h. set-set n v at h | prim.Insert at n ↦ λ h. remove-insert n v at h | prim.Remove at ↦ λ h. insert-remove v at h ] };

    fn copy(&self) -> Result<Numbers, AllocError> {
        Ok(Numbers {
            items: self.items.clone()?,
            next: self.next,
            alloc: self.alloc,
        })
    }

    fn expand(&self, op: &Op) -> Result<Vec<Prim>, ExpandFault<Why>> {
        let length = self.items.len();
        match *op {
            Op::Set { at, .. } if at >= length => Err(ExpandFault::Refused(Why::PastEnd)),
            Op::Set { at, number } => Ok(Vec::from_array(self.alloc, [Prim::Set { at, number }])?),
            Op::Insert { at, .. } if at > length => Err(ExpandFault::Refused(Why::PastEnd)),
            Op::Insert { at, number } => {
                Ok(Vec::from_array(self.alloc, [Prim::Insert { at, number }])?)
            }
            Op::Move { from, to } if from.max(to) >= length => {
                Err(ExpandFault::Refused(Why::PastEnd))
            }
            Op::Move { from, to } => {
                let number = self.items[from];
                let away = Prim::Remove { at: from };
                let back = Prim::Insert { at: to, number };
                Ok(Vec::from_array(self.alloc, [away, back])?)
            }
            Op::Draw => {
                let Ok(number) = u32::try_from(self.next) else {
                    return Err(ExpandFault::Refused(Why::NoneLeft));
                };
                Ok(Vec::from_array(self.alloc, [Prim::Insert { at: length, number }])?)
            }
        }
    }

    fn apply(&mut self, prim: &Prim) -> Result<Prim, AllocError> {
        match *prim {
            Prim::Set { at, number } => {
                let old = self.items[at];
                self.items[at] = number;
                Ok(Prim::Set { at, number: old })
            }
            Prim::Insert { at, number } => {
                self.items.insert(at, number)?;
                self.next = self.next.max(u64::from(number) + 1);
                Ok(Prim::Remove { at })
            }
            Prim::Remove { at } => {
                let number = self.items.remove(at);
                Ok(Prim::Insert { at, number })
            }
        }
    }
}
