//! Numbers at places, and the least of them.
ghost use Rattle.pl_least.specs.Tournament.{IsTournament};

use crate::tournament::{least_of, mend};
use std::alloc::{AllocError, Allocator, Global};

/// At a place where no number stands.
const NONE: u64 = u64::MAX;

/// Numbers below 18,446,744,073,709,551,615 at places 0, 1, 2 and so on, at most one at each. The least of them is known without a search; a change
/// costs the logarithm of how many places there are.
#[derive(Drop)]
pub struct Least<A: Allocator = Global> {
    alloc: A,
    /// The numbers at the places are the second half, in order. An entry of the first half, from the second one on, is the lesser of two others: that
    /// at twice its own place, and the next one.
    pub(crate) entries: Vec<u64, A>,
    /// How many places there are.
    pub(crate) places: usize,
    ghost kept: { IsTournament entries.items places },
}

impl<A: Allocator + Copy> Least<A> {
    ghost use Rattle.std.specs.Prelude.{◌≡◌, ℕ, ◌+◌, ◌<◌, ◌≤◌, OnOk, IfOk, None};
    ghost use Rattle.pl_least.specs.None.{none};
    ghost use Rattle.pl_least.specs.Tournament.{entry};
    ghost use Rattle.pl_least.specs.Numbers.{number_at, has_place};

    /// No places. It takes no memory.
    pub fn new(alloc: A) -> Self
        ensures { (place : ℕ) → number_at result place ≡ None }
    {
        Least {
            alloc,
            entries: Vec::new(alloc),
            places: 0,
        }
    }

    /// Makes so many places, if there are fewer. No number changes, and none stands at a new place.
    ///
    /// # Errors
    ///
    /// `AllocError` where there are fewer, and no memory for more.
    pub fn reserve(&mut self, places: usize) -> Result<(), AllocError>
        ensures ok { OnOk result ((place : ℕ) → place < places → has_place self.new place) }
        ensures more { (place : ℕ) → has_place self.old place → has_place self.new place }
        ensures same { (place : ℕ) → number_at self.new place ≡ number_at self.old place }
    {
        if places <= self.places {
            return Ok(());
        }
        *self = self.grown(places.max(self.places.saturating_mul(2)))?;
        Ok(())
    }

    // The same numbers at more places.
    fn grown(&self, places: usize) -> Result<Self, AllocError>
        requires { self.now.places ≤ places }
        ensures places { IfOk result (λ l. l.places ≡ places) }
        ensures same { IfOk result (λ l. (place : ℕ) → number_at l place ≡ number_at self.now place) }
    {
        let mut grown = Least::with(self.alloc, places)?;
        for place in 0..self.places {
            grown.put(place, self.entries[self.places + place]);
        }
        Ok(grown)
    }

    // So many places, at which no number stands.
    fn with(alloc: A, places: usize) -> Result<Self, AllocError>
        ensures places { IfOk result (λ l. l.places ≡ places) }
        ensures none { IfOk result (λ l. (place : ℕ) → entry l.entries.items (l.places + place) ≡ none) }
    {
        let len = places.checked_mul(2).ok_or(AllocError)?;
        let mut entries = Vec::new(alloc);
        entries.resize(len, NONE)?;
        Ok(Least {
            alloc,
            entries,
            places,
        })
    }
}

impl<A: Allocator> Least<A> {
    ghost use Rattle.std.specs.Prelude.{◌≡◌, ◌≢◌, ℕ, ◌<◌, ◌≤◌, ◌+◌, ◌^◌, ◌-◌, IfSome, IfNone, None, Some, if◌then◌else◌, nat_eq};
    ghost use Rattle.pl_least.specs.Tournament.{entry};
    ghost use Rattle.pl_least.specs.None.{none};
    ghost use Rattle.pl_least.specs.Numbers.{number_at, has_place, IsFirst};

    /// A number stands at a place, in place of the one before, or none does. It takes no memory.
    pub fn set(&mut self, place: usize, number: Option<u64>)
        requires place { has_place self.old place }
        requires number { IfSome number (λ n. n < none) }
        ensures value { (other : ℕ) → number_at self.new other ≡ (if nat_eq other place then number else number_at self.old other) }
        ensures places { (other : ℕ) → has_place self.old other → has_place self.new other }
    {
        self.put(place, number.unwrap_or(NONE));
    }

    // The same of an entry.
    fn put(&mut self, place: usize, number: u64)
        requires { place < self.old.places }
        ensures places { self.new.places ≡ self.old.places }
        ensures here { entry self.new.entries.items (self.old.places + place) ≡ number }
        ensures others { (other : ℕ) → other ≢ place → entry self.new.entries.items (self.old.places + other) ≡ entry self.old.entries.items (self.old.places + other) }
    {
        self.entries[self.places + place] = number;
        mend(&mut self.entries, self.places, self.places + place);
    }

    /// How many places there are.
    pub fn places(&self) -> usize
        ensures value { result ≡ self.now.places }
        ensures most { (place number : ℕ) → number_at self.now place ≡ Some number → place < result }
    {
        self.places
    }

    /// The number at a place, if one stands there.
    pub fn get(&self, place: usize) -> Option<u64>
        ensures { result ≡ number_at self.now place }
    {
        if place >= self.places {
            return None;
        }
        Some(self.entries[self.places + place]).filter(|number| *number != NONE)
    }

    /// A place at which the least number stands.
    pub fn first(&self) -> Option<usize>
        ensures some { IfSome result (IsFirst self.now) }
        ensures none { IfNone result ((place : ℕ) → number_at self.now place ≡ None) }
    {
        if self.places == 0 {
            return None;
        }
        let entries = self.entries.as_slice();
        let least = least_of(entries, self.places);
        if entries[least] == NONE {
            return None;
        }
        Some(least - self.places)
    }
}
