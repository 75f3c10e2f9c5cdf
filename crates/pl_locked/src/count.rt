//! A number that only contracts see.
ghost use Rattle.std.specs.Prelude.{◌≡◌, ◌+◌};

use std::marker::Model;
use std::snapshot::Snapshot;

/// A count that exists in contracts alone: it takes no memory, and its functions cost nothing.
#[derive(Drop)]
pub(crate) struct Count {
    last: Option<Snapshot<Count>>,
}

impl Model for Count {
    ghost use Rattle.std.specs.Prelude.{ℕ};

    ghost Value = { ℕ };

    ghost use Rattle.pl_locked.specs.Logs.{counted};

    ghost view = { λ c. counted c.last };

    ghost size = { λ n. n };

    ghost use Rattle.std.proofs.Common.{arith};

    ghost size_decreases = { λ a h. Prim.grind (arith) };
}

impl Count {
    /// Nothing was counted.
    pub(crate) fn new() -> Count
        ensures { result ≡ 0 }
    {
        Count { last: None }
    }

    /// Counts one more.
    pub(crate) fn up(&mut self)
        ensures { self.new ≡ self.old + 1 }
    {
        let before = Snapshot::of(self);
        *self = Count { last: Some(before) };
    }
}
