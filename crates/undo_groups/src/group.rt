//! A group of primitives, shared between a list and the step that applies it.
ghost use Rattle.std.specs.Prelude.{◌≡◌, List, [], ◌∷◌, ◌++◌, IfOk, MatchOption};

use std::alloc::{AllocError, Global};
use std::collections::VecDeque;
use std::marker::Model;
use std::sync::Arc;

/// Primitives in the order in which they are applied.
#[derive(Drop)]
pub struct Group<P> {
    prims: Arc<Vec<P>>,
}

impl<P> Model for Group<P> {
    ghost use Rattle.std.specs.Prelude.{List};
    ghost use Rattle.std.specs.Coded.{coded_list};

    ghost Value = { List P };

    ghost coded = { coded_list P.code };

    ghost view = { λ g. g.prims.value.items };
}

impl<P> Group<P> {
    pub fn new(alloc: Global, prims: Vec<P>) -> Result<Group<P>, AllocError>
    where
        P: Drop,
        ensures { IfOk result (λ g. g ≡ prims.items) }
    {
        Ok(Group {
            prims: Arc::new(alloc, prims)?,
        })
    }

    pub fn share(&self) -> Result<Group<P>, AllocError>
        ensures { IfOk result (λ g. g ≡ self.now) }
    {
        Ok(Group {
            prims: Arc::try_clone(&self.prims)?,
        })
    }

    pub fn prims(&self) -> &[P]
        ensures { result.now ≡ self.now }
    {
        self.prims.as_slice()
    }
}

// The group that stands last.
pub fn last_of<P>(groups: &VecDeque<Group<P>>) -> Option<&Group<P>>
    ensures { MatchOption result (groups.now.items ≡ []) (λ last. (rest : List (List P)) × (groups.now.items ≡ rest ++ last.now ∷ [])) }
{
    groups.back()
}
