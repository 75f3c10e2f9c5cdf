//! What a poll asks, and what it finds.
ghost use Rattle.std.specs.Prelude.{◌≡◌, List, ℤ, nat_eq, IfOk};
ghost use Rattle.std.specs.Cmp.{partial_equiv_from_equiv, on_equiv, and_equiv, nat_eq_equiv, int_eq_equiv};
ghost use Rattle.std.specs.Cmp.Lexicographic.{pointwise, lists_equiv};
ghost use Rattle.std.specs.Ordering.{int_eq, on, eq_of_both};
ghost use Rattle.pl_model.specs.declared.flags.PollMask.{PollMask as Mask};

use crate::flags::PollMask;
use std::alloc::{AllocError, Allocator, Global};
use std::marker::Model;

/// The entries of a poll in order, each a descriptor and what is asked of it (POSIX.1-2017, poll). Contracts see them as their
/// list.
#[derive(Drop, Debug)]
pub struct PollList<A: Allocator = Global> {
    entries: Vec<(i32, PollMask), A>,
}

impl<A: Allocator> Model for PollList<A> {
    ghost Value = { List (ℤ × Mask) };

    ghost view = { λ l. l.entries.items };
}

impl<A: Allocator> PollList<A> {
    /// The entries of the vector, whose memory it keeps. It takes no memory.
    pub fn from_vec(entries: Vec<(i32, PollMask), A>) -> Self
        ensures { result ≡ entries.items }
    {
        PollList { entries }
    }

    /// The entries, in order.
    pub fn as_slice(&self) -> &[(i32, PollMask)]
        ensures { result.now ≡ self.now }
    {
        self.entries.as_slice()
    }

    /// The same entries, in memory of their own.
    pub fn copy(&self, alloc: A) -> Result<Self, AllocError>
        ensures { IfOk result (λ entries. entries ≡ self.now) }
    {
        let entries = Vec::from_slice(alloc, &self.entries)?;
        Ok(PollList::from_vec(entries))
    }
}

impl<A: Allocator> PartialEq for PollList<A> {
    ghost eq = { pointwise (eq_of_both (on (λ e. e.0) int_eq) (on (λ e. e.1.0) nat_eq)) };

    ghost laws = { partial_equiv_from_equiv (lists_equiv (and_equiv (on_equiv (λ e. e.0) int_eq_equiv) (on_equiv (λ e. e.1.0) nat_eq_equiv))) };

    fn eq(&self, other: &Self) -> bool {
        self.as_slice() == other.as_slice()
    }
}

/// What a poll found, a mask for each of its entries, in order. Contracts see them as their list.
#[derive(Drop, Debug)]
pub struct MaskList<A: Allocator = Global> {
    masks: Vec<PollMask, A>,
}

impl<A: Allocator> Model for MaskList<A> {
    ghost Value = { List Mask };

    ghost view = { λ l. l.masks.items };
}

impl<A: Allocator> MaskList<A> {
    /// The masks of the vector, whose memory it keeps. It takes no memory.
    pub fn from_vec(masks: Vec<PollMask, A>) -> Self
        ensures { result ≡ masks.items }
    {
        MaskList { masks }
    }

    /// The masks, in order.
    pub fn as_slice(&self) -> &[PollMask]
        ensures { result.now ≡ self.now }
    {
        self.masks.as_slice()
    }

    /// The same masks, in memory of their own.
    pub fn copy(&self, alloc: A) -> Result<Self, AllocError>
        ensures { IfOk result (λ masks. masks ≡ self.now) }
    {
        let masks = Vec::from_slice(alloc, &self.masks)?;
        Ok(MaskList::from_vec(masks))
    }
}

impl<A: Allocator> PartialEq for MaskList<A> {
    ghost eq = { pointwise (on (λ m. m.0) nat_eq) };

    ghost laws = { partial_equiv_from_equiv (lists_equiv (on_equiv (λ m. m.0) nat_eq_equiv)) };

    fn eq(&self, other: &Self) -> bool {
        self.as_slice() == other.as_slice()
    }
}
