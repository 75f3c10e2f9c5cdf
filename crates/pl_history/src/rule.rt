//! The rule of the history word, and the steps on it: an addition, a load, a split of a seat and a join of two.
use atomic_table::{Join, Play, Split, TableRule};
use pl_model::Entry;
use std::alloc::Allocator;
use std::collections::LinkedList;

/// What a seat knows: whether it is the recorder's, a history, and an earlier one that it was told of. No value of it is made.
pub struct View<A: Allocator> {
    pub recorder: bool,
    pub seen: LinkedList<Entry<A>>,
    pub told: LinkedList<Entry<A>>,
}

/// The word is the length of the recorder's history, and what any seat has seen begins that.
pub struct Law;

impl<A: Allocator> TableRule<Entry<A>, View<A>, ()> for Law {
    ghost use Rattle.std.specs.Prelude.{[], true};
    ghost use Rattle.pl_history.specs.Words.{Kept, view};

    ghost holds = { λ _ s. Kept s };

    ghost first = { λ _. view true [] [] };
}

/// The recorder adds an entry.
pub(crate) struct Adding;

impl<A: Allocator> Play<Entry<A>, View<A>> for Adding {
    ghost use Rattle.pl_history.specs.Words.{Adds};

    ghost then = { Adds };
}

/// A seat looks how long the history is.
pub(crate) struct Looking;

impl<A: Allocator> Play<Entry<A>, View<A>> for Looking {
    ghost use Rattle.pl_history.specs.Words.{Looks};

    ghost then = { Looks };
}

/// A new seat has seen what another has.
pub(crate) struct Copying;

impl<A: Allocator> Split<View<A>> for Copying {
    ghost use Rattle.pl_history.specs.Words.{copied};

    ghost left = { λ v. v };

    ghost right = { copied };
}

/// A seat is told what another has seen, which ends.
pub(crate) struct Telling;

impl<A: Allocator> Join<View<A>> for Telling {
    ghost use Rattle.pl_history.specs.Words.{informed, nobody};

    ghost both = { informed };

    ghost spent = { nobody };
}

/// A seat has seen what another has, which ends.
pub(crate) struct Following;

impl<A: Allocator> Join<View<A>> for Following {
    ghost use Rattle.pl_history.specs.Words.{following, nobody};

    ghost both = { following };

    ghost spent = { nobody };
}
