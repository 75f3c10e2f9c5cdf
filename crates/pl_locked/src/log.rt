//! Entries that only contracts see.
ghost use Rattle.std.specs.Prelude.{◌≡◌, [], ◌∷◌, ◌++◌};

use pl_model::Entry;
use std::alloc::{Allocator, Global};
use std::marker::Model;
use std::snapshot::Snapshot;

/// A list of entries that exists in contracts alone: it takes no memory, and its functions cost nothing.
#[derive(Drop)]
pub(crate) struct Log<A: Allocator = Global> {
    last: Option<(Snapshot<Log<A>>, Snapshot<Entry<A>>)>,
}

impl<A: Allocator> Model for Log<A> {
    ghost use Rattle.std.specs.Prelude.{List, length};
    ghost use Rattle.pl_model.specs.declared.history.Entry.{Entry};

    ghost Value = { List (Entry A) };

    ghost use Rattle.pl_locked.specs.Logs.{entries_of};

    ghost view = { λ l. entries_of l.last };

    ghost size = { length };

    ghost use Rattle.std.proofs.Common.{arith, length-append};

    ghost size_decreases = { λ a h. Prim.grind (arith, length-append) };
}

impl<A: Allocator> Log<A> {
    /// No entries.
    pub(crate) fn new() -> Log<A>
        ensures { result ≡ [] }
    {
        Log { last: None }
    }

    /// One entry more, at the end.
    pub(crate) fn push(&mut self, entry: &Entry<A>)
        ensures { self.new ≡ self.old ++ entry.now ∷ [] }
    {
        let before = Snapshot::of(self);
        *self = Log {
            last: Some((before, Snapshot::of(entry))),
        };
    }
}
