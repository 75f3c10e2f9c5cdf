//! Descriptions with the counts of their holders.
ghost use Rattle.std.specs.Prelude.{◌≡◌, ℕ, ◌<◌, ◌≤◌, ◌^◌, length, IsSome, Some};
ghost use Rattle.pl_model.specs.Numbers.{most_descriptors};
ghost use Rattle.pl_desc.specs.Rows.{at};
ghost use Rattle.pl_desc.specs.Slots.{holders_of, held_all};

use crate::table::Table;
use pl_model::{Mode, Node, OpenFlags};
use slab::Slab;
use std::alloc::Allocator;

/// An open file description (POSIX.1-2017, Open File Description).
#[derive(Clone, Copy)]
pub(crate) struct Description {
    pub(crate) node: Node,
    pub(crate) mode: Mode,
    pub(crate) flags: OpenFlags,
    pub(crate) offset: u64,
    /// The rows that name it, and its loose holds.
    pub(crate) holders: u128,
}

/// Adds a holder to each description, for each descriptor of the table that names it. It takes no memory.
pub(crate) fn hold_all<A: Allocator>(descriptions: &mut Slab<Description, A>, table: &Table<A>)
    requires wide { length table.now.names ≤ most_descriptors }
    requires here { (fd key : ℕ) → at table.now.names fd ≡ Some key → IsSome (at descriptions.old.slots key) }
    requires few { (key : ℕ) → holders_of (at descriptions.old.slots key) < 2 ^ 127 }
    ensures { descriptions.new ≡ record descriptions.old { slots = held_all table.now.names descriptions.old.slots } }
{
    let mut from = 0;
    while let Some((fd, key)) = table.next_open(from) {
        let held = &mut descriptions[key];
        held.holders += 1;
        from = fd + 1;
    }
}
