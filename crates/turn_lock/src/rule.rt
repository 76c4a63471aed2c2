//! The rule of a lock's table, and the names of its steps.
ghost use Rattle.turn_lock.specs.Plays.{took, counted, freed, loaded, compared};
ghost use Rattle.turn_lock.specs.Rule.{giving_view, given_view, joined_view, spent_view};

use crate::book::Book;
use crate::machine::Machine;
use crate::view::{Terms, View};
use atomic_table::{Join, Play, Seat, Shared, Split, TableRule};

/// One caller at a time has the turn, and there is one history.
pub struct OneTurn;

impl<M: Machine> TableRule<Option<Book<M>>, View<M>, Terms<M>> for OneTurn {
    ghost use Rattle.turn_lock.specs.Rule.{Kept, first_view};

    ghost holds = { λ t s. Kept t s };

    ghost first = { λ t. first_view t };
}

pub(crate) type Top<M> = Shared<Option<Book<M>>, View<M>, Terms<M>, OneTurn>;

pub type Pass<M> = Seat<Option<Book<M>>, View<M>>;

pub(crate) struct Take;

impl<M: Machine> Play<Option<Book<M>>, View<M>> for Take {
    ghost then = { λ _. took };
}

pub(crate) struct Count;

impl<M: Machine> Play<Option<Book<M>>, View<M>> for Count {
    ghost then = { λ _. counted };
}

pub(crate) struct Free;

impl<M: Machine> Play<Option<Book<M>>, View<M>> for Free {
    ghost then = { λ _. freed };
}

pub(crate) struct Load;

impl<M: Machine> Play<Option<Book<M>>, View<M>> for Load {
    ghost then = { λ _. loaded };
}

pub(crate) struct Compare;

impl<M: Machine> Play<Option<Book<M>>, View<M>> for Compare {
    ghost then = { λ _. compared };
}

pub(crate) struct Cut;

impl<M: Machine> Split<View<M>> for Cut {
    ghost left = { giving_view };

    ghost right = { given_view };
}

pub(crate) struct Glue;

impl<M: Machine> Join<View<M>> for Glue {
    ghost both = { joined_view };

    ghost spent = { spent_view };
}
