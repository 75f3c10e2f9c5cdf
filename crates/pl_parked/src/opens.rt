//! The opens of FIFOs that wait and weren't met.
ghost use Rattle.std.specs.Prelude.{◌≡◌, ℕ, ◌&&◌, ◌||◌, not, false, IsTrue, IfSome, IfNone, OnOk, OnErr};
ghost use Rattle.pl_parked.specs.Waiting.{is_in, is_named, key_of, waiting_open, has_met};

use crate::call::ParkedCall;
use pl_model::Mode;
use std::alloc::{AllocError, Allocator};
use std::collections::BTreeSet;

/// An open that waits. By this order those that one open meets stand together.
#[derive(Clone, Copy, PartialEq, Eq, PartialOrd, Ord)]
pub(crate) struct WaitingOpen {
    /// The key of the FIFO's pipe.
    pub(crate) pipe: usize,
    /// Whether it reads, and lacks a writer; if not, it writes, and lacks a reader.
    pub(crate) reads: bool,
    /// The number that it is parked under.
    pub(crate) number: u64,
}

/// The opens that wait and weren't met.
#[derive(Drop)]
pub(crate) struct Opens<A: Allocator> {
    pub(crate) set: BTreeSet<WaitingOpen, A>,
}

impl<A: Allocator + Copy> Opens<A> {
    /// None. It takes no memory.
    pub(crate) fn new(alloc: A) -> Opens<A>
        ensures { (key : WaitingOpen) → is_in result.set key ≡ false }
    {
        Opens {
            set: BTreeSet::new(alloc),
        }
    }

    /// Lists a call under its number, if it is an open that waits and wasn't met.
    pub(crate) fn list(&mut self, call: &ParkedCall<A>, number: u64) -> Result<(), AllocError>
        ensures ok { OnOk result ((key : WaitingOpen) → is_in self.new.set key ≡ (is_named (waiting_open number call.now) key || is_in self.old.set key)) }
        ensures err { OnErr result ((key : WaitingOpen) → is_in self.new.set key ≡ is_in self.old.set key) }
    {
        if let Some(open) = call.waiting_open(number) {
            self.set.insert(open)?;
        }
        Ok(())
    }
}

impl<A: Allocator> Opens<A> {
    /// Lists a call no more. It takes no memory.
    pub(crate) fn unlist(&mut self, call: &ParkedCall<A>, number: u64)
        ensures { (key : WaitingOpen) → is_in self.new.set key ≡ (not (is_named (waiting_open number call.now) key) && is_in self.old.set key) }
    {
        if let Some(open) = call.waiting_open(number) {
            self.set.remove(&open);
        }
    }

    /// The number of an open of the FIFO of this pipe that an open with the mode meets.
    pub(crate) fn first_met(&self, pipe: usize, mode: Mode) -> Option<u64>
        ensures some { IfSome result (λ number. IsTrue (has_met self.now.set pipe mode number)) }
        ensures none { IfNone result ((number : ℕ) → has_met self.now.set pipe mode number ≡ false) }
    {
        match mode {
            Mode::Read => self.first(pipe, false),
            Mode::Write => self.first(pipe, true),
            Mode::Both => {
                let first = self.first(pipe, false);
                if first.is_some() {
                    return first;
                }
                self.first(pipe, true)
            }
        }
    }

    // The number of the first open of the FIFO of this pipe that reads, or that writes.
    fn first(&self, pipe: usize, reads: bool) -> Option<u64>
        ensures some { IfSome result (λ number. IsTrue (is_in self.now.set (key_of pipe reads number))) }
        ensures none { IfNone result ((number : ℕ) → is_in self.now.set (key_of pipe reads number) ≡ false) }
    {
        let least = WaitingOpen {
            pipe,
            reads,
            number: 0,
        };
        let open = self.set.range(least..).next()?;
        if open.pipe == pipe && open.reads == reads {
            Some(open.number)
        } else {
            None
        }
    }
}
