//! When the table of the pipes and files gives memory back.
ghost use Rattle.std.specs.Prelude.{◌≡◌, ◌/◌};
ghost use Rattle.slab.specs.Slab.{SameValues};

use crate::content::Content;
use slab::Slab;
use std::alloc::Allocator;

// A table with room for so few values isn't cut.
const KEPT: usize = 64;

/// How many values stand in the upper three quarters of a table. As the last of them goes, the table is cut after the value of the
/// greatest key. So it is at most four times as long as that key asks for, and the values that it grew by have paid for the cut.
#[derive(Clone, Copy)]
pub(crate) struct Upper {
    // The least key of the upper part: a quarter of the table's capacity, as it was last counted.
    least: usize,
    count: usize,
}

impl Upper {
    /// Nothing stands in a new table.
    pub(crate) const fn new() -> Upper
        ensures { result.least ≡ 0 }
    {
        Upper { least: 0, count: 0 }
    }

    /// Counts a value that comes under the table's next key. There is room for it.
    pub(crate) fn comes<A: Allocator>(&mut self, table: &Slab<Content<A>, A>)
        ensures { self.new.least ≡ table.now.capacity / 4 }
    {
        if self.least != table.capacity() / 4 {
            self.count_all(table);
        }
        if table.vacant_key() >= self.least {
            self.count = self.count.saturating_add(1);
        }
    }

    /// Counts a value off that went from a key, and cuts the table after the last value of the upper part. It takes no memory: where
    /// the values can't be moved, the table stays as long as it is.
    pub(crate) fn went<A: Allocator>(&mut self, table: &mut Slab<Content<A>, A>, key: usize)
        ensures { SameValues table.old table.new }
    {
        if key < self.least {
            return;
        }
        self.count = self.count.saturating_sub(1);
        if self.count == 0 && table.capacity() > KEPT {
            table.shrink_to_fit();
            self.count_all(table);
        }
    }

    // Counts all values of the table.
    fn count_all<A: Allocator>(&mut self, table: &Slab<Content<A>, A>)
        ensures { self.new.least ≡ table.now.capacity / 4 }
    {
        let least = table.capacity() / 4;
        let mut count: usize = 0;
        for (key, _) in table.iter() {
            if key >= least {
                count = count.saturating_add(1);
            }
        }
        *self = Upper { least, count };
    }
}
