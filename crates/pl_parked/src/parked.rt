//! The calls that wait, by number.
ghost use Rattle.std.specs.Prelude.{ℕ, ◌≡◌, ◌+◌, ◌≤◌, ◌++◌, ◌==◌, [], ◌∷◌, ◌↔◌, IfOk, OnOk, OnErr, IfSome, IfNone, IsSome, IsSomeAnd, Some, None, true, false, nat_eq, length, count_by, slice_get, option_map};
ghost use Rattle.std.specs.Option.{option_copied};
ghost use Rattle.std.specs.List.{find};
ghost use Rattle.pl_model.specs.Numbers.{last_call};
ghost use Rattle.pl_model.specs.Map.{get, put, without};
ghost use Rattle.pl_parked.specs.Calls.{is_of_from};
ghost use Rattle.pl_numbered.specs.Rising.{Rise};
ghost use Rattle.pl_parked.specs.Meeting.{meets, all_marked};

use crate::call::ParkedCall;
use crate::fault::ParkFault;
use crate::opens::Opens;
use crate::owners::Owners;
use pl_model::numbers::LAST_CALL;
use pl_model::{KeyList, Mode};
use pl_numbered::Numbered;
use std::alloc::{Allocator, Global};
use std::marker::Model;

/// So many calls may be parked that have no place in an index.
const UNPLACED: u64 = 8;

/// The calls that wait, by number, and the number that the next one gets. Contracts see the list of them, in rising order
/// of number.
#[derive(Drop)]
pub struct Parked<A: Allocator = Global> {
    calls: Numbered<ParkedCall<A>, A>,
    /// All calls, by their processes.
    owners: Owners<A>,
    /// The calls that are opens of FIFOs which wait and weren't met.
    opens: Opens<A>,
    next: u64,
    /// From this number on no call is parked, before more have places.
    bound: u64,
}

impl<A: Allocator> Model for Parked<A> {
    ghost use Rattle.pl_parked.specs.Calls.{Calls};

    ghost Value = { Calls A };

    ghost use Rattle.pl_parked.specs.CallsView.{view_of, IsSound};
    ghost use Rattle.pl_numbered.specs.Numbered.{values};
    ghost use Rattle.pl_parked.specs.Owners.{owns};

    ghost view = { view_of };

    ghost invariant = { λ p. IsSound (values p.calls) (owns p.owners) p.opens.set p.next };
}

impl<A: Allocator + Copy> Parked<A> {
    /// No calls. The first one parked gets the number `first`. It takes no memory.
    pub fn new(alloc: A, first: u64) -> Self
        ensures { result ≡ record { calls = []; next = first } }
    {
        Parked {
            calls: Numbered::new(alloc),
            owners: Owners::new(alloc),
            opens: Opens::new(alloc),
            next: first,
            bound: first.saturating_add(UNPLACED),
        }
    }

    /// Parks a call under the next number, and answers that number. An error leaves all as it was.
    ///
    /// # Errors
    ///
    /// - `CallsSpent` exactly where no number is left: the next would be 18,446,744,073,709,551,615, which is never given. It
    ///   takes no memory.
    /// - `NoMemory` where a number is left, and there is no memory for one call more, or eight were parked that have no places yet.
    pub fn park(&mut self, call: ParkedCall<A>) -> Result<u64, ParkFault>
        ensures number { IfOk result (λ number. number ≡ self.old.next) }
        ensures ok { OnOk result (self.new ≡ record { calls = self.old.calls ++ (self.old.next, call) ∷ []; next = self.old.next + 1 }) }
        ensures spent { (result ≡ Err ParkFault.CallsSpent) ↔ (self.old.next ≡ last_call) }
        ensures err { OnErr result (self.new ≡ self.old) }
    {
        if self.spent() {
            return Err(ParkFault::CallsSpent);
        }
        if self.next >= self.bound {
            return Err(ParkFault::NoMemory);
        }
        let number = self.next;
        if self.calls.reserve().is_err() || self.owners.add(call.pid as usize, number).is_err() {
            return Err(ParkFault::NoMemory);
        }
        if self.opens.list(&call, number).is_err() {
            self.owners.remove(call.pid as usize, number);
            return Err(ParkFault::NoMemory);
        }
        self.calls.push_reserved(number, call);
        self.next = number + 1;
        Ok(number)
    }
}

impl<A: Allocator> Parked<A> {
    /// Whether no number is left for one call more.
    pub fn spent(&self) -> bool
        ensures { result ≡ (self.now.next == last_call) }
    {
        self.next == LAST_CALL
    }

    /// The calls below a number have places in an index, so that those that can make progress are found. Eight more may be parked.
    pub fn place_below(&mut self, number: u64)
        ensures { self.new ≡ self.old }
    {
        self.bound = number.saturating_add(UNPLACED);
    }

    /// How many calls wait.
    pub fn len(&self) -> usize
        ensures { result ≡ length self.now.calls }
    {
        self.calls.len()
    }

    /// How many calls of a process wait.
    pub fn count_of(&self, pid: u32) -> usize
        ensures { result ≡ count_by (λ e. nat_eq e.1.pid pid) self.now.calls }
    {
        self.owners.count(pid as usize)
    }

    /// The number that the next call gets, if one is left. It is above those of all calls that wait.
    pub fn next_number(&self) -> u64
        ensures value { result ≡ self.now.next }
        ensures rise { Rise 0 self.now.next self.now.calls }
    {
        self.next
    }

    /// Takes back the call that was parked last, and gives its number to the next call. It takes no memory.
    pub fn unpark(&mut self, number: u64) -> ParkedCall<A>
        requires last { number + 1 ≡ self.old.next }
        requires here { IsSome (get nat_eq self.old.calls number) }
        ensures calls { self.old.calls ≡ self.new.calls ++ (number, result) ∷ [] }
        ensures next { self.new.next ≡ number }
    {
        let call = self.calls.take(number).unwrap();
        self.opens.unlist(&call, number);
        self.owners.remove(call.pid as usize, number);
        self.next = number;
        call
    }

    /// The call of a number.
    pub fn get(&self, number: u64) -> Option<&ParkedCall<A>>
        ensures { option_copied result ≡ get nat_eq self.now.calls number }
    {
        self.calls.get(number)
    }

    /// Takes the call of a number out. The number isn't given again. It takes no memory.
    pub fn take(&mut self, number: u64) -> Option<ParkedCall<A>>
        ensures call { result ≡ get nat_eq self.old.calls number }
        ensures rest { self.new ≡ record self.old { calls = without nat_eq self.old.calls number } }
    {
        let call = self.calls.take(number)?;
        self.opens.unlist(&call, number);
        self.owners.remove(call.pid as usize, number);
        Some(call)
    }

    /// The least number, `from` or above, of the calls of a process, if it has one there. To ask from each number that it returned, and one more,
    /// until there is none costs at most as much as the calls of the process are many: it goes over those that ended too, but they are no more than
    /// the others.
    pub fn next_of_process(&self, pid: u32, from: u64) -> Option<u64>
        ensures value { result ≡ option_map (λ entry. entry.0) (find (is_of_from pid from) self.now.calls) }
        ensures parked { IfSome result (λ number. (from ≤ number) × IsSomeAnd (get nat_eq self.now.calls number) (λ call. call.pid ≡ pid)) }
        ensures least { IfSome result (λ number. (other : ℕ) → from ≤ other → IfSome (get nat_eq self.now.calls other) (λ call. call.pid ≡ pid → number ≤ other)) }
        ensures none { IfNone result ((number : ℕ) → from ≤ number → IfSome (get nat_eq self.now.calls number) (λ call. ¬ (call.pid ≡ pid))) }
    {
        self.owners.first_from(pid as usize, from)
    }

    /// The least number, `from` or above, of the calls that wait.
    pub fn next_from(&self, from: u64) -> Option<u64>
        ensures parked { IfSome result (λ number. (from ≤ number) × IsSome (get nat_eq self.now.calls number)) }
        ensures least { IfSome result (λ number. (other : ℕ) → from ≤ other → IsSome (get nat_eq self.now.calls other) → number ≤ other) }
        ensures none { IfNone result ((number : ℕ) → from ≤ number → get nat_eq self.now.calls number ≡ None) }
    {
        self.calls.next_from(from)
    }

    /// Says how many bytes the write of a number took so far. It takes no memory.
    pub fn set_taken(&mut self, number: u64, taken: u32)
        requires { IsSome (get nat_eq self.old.calls number) }
        ensures { IfSome (get nat_eq self.old.calls number) (λ call. self.new ≡ record self.old { calls = put nat_eq self.old.calls number (record call { taken = taken }) }) }
    {
        let place = self.calls.place_of(number).unwrap();
        let Some(call) = &mut self.calls.entries[place].1 else {
            unreachable!()
        };
        call.taken = taken;
    }

    /// Says which descriptions the call of a number keeps. It takes no memory.
    pub fn set_kept(&mut self, number: u64, kept: KeyList<A>)
        requires { IsSome (get nat_eq self.old.calls number) }
        ensures { IfSome (get nat_eq self.old.calls number) (λ call. self.new ≡ record self.old { calls = put nat_eq self.old.calls number (record call { kept = kept }) }) }
    {
        let place = self.calls.place_of(number).unwrap();
        let Some(call) = &mut self.calls.entries[place].1 else {
            unreachable!()
        };
        call.kept = kept;
    }

    /// Marks the opens that an open of a FIFO with this mode meets as it succeeds or begins to wait: those of the FIFO of this
    /// pipe that lack an end that the mode has (fifo(7)). It goes over none but those that weren't met before, and takes no
    /// memory.
    pub fn mark_met(&mut self, pipe: usize, mode: Mode)
        ensures { self.new ≡ record self.old { calls = all_marked pipe mode self.old.calls } }
    {
        while let Some(number) = self.next_met(pipe, mode) {
            self.mark(number);
        }
    }

    // The number of an open that an open with this mode meets, and that no open met before.
    fn next_met(&self, pipe: usize, mode: Mode) -> Option<u64>
        ensures some { IfSome result (λ number. IsSomeAnd (get nat_eq self.now.calls number) (λ call. (meets pipe mode call ≡ true) × (call.met ≡ false))) }
        ensures none { IfNone result (all_marked pipe mode self.now.calls ≡ self.now.calls) }
    {
        self.opens.first_met(pipe, mode)
    }

    // Marks the open of a number.
    fn mark(&mut self, number: u64)
        requires { IsSome (get nat_eq self.old.calls number) }
        ensures { IfSome (get nat_eq self.old.calls number) (λ call. self.new ≡ record self.old { calls = put nat_eq self.old.calls number (record call { met = true }) }) }
    {
        let place = self.calls.place_of(number).unwrap();
        let Some(open) = &mut self.calls.entries[place].1 else {
            unreachable!()
        };
        self.opens.unlist(open, number);
        open.met = true;
    }
}
