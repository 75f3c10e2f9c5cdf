//! Values under numbers that rise.
ghost use Rattle.std.proofs.Props.{props};
ghost use Rattle.pl_numbered.specs.Rising.{Rise-prop};
ghost use Rattle.pl_numbered.specs.Entries.{AreTidy};

use crate::entries::{Entry, count_below, drop_empty_end, place_of};
use std::alloc::{AllocError, Allocator, Global};

/// Room for so many values is kept when they are taken out.
const KEPT: usize = 16;

/// Values, each under a number above those of all before it. The entry of a value that is taken out stays, empty, until
/// none with a value follows, or more than half of the entries are empty. So a number is found from either end or by a binary search, and fewer
/// values move than are taken out.
#[derive(Drop)]
pub struct Numbered<T, A: Allocator = Global> {
    /// In rising order of number; public so that a value is changed where it is.
    pub entries: Vec<Entry<T>, A>,
    /// How many entries are empty.
    pub empty: usize,
    ghost kept: { AreTidy entries.items empty } by { Prim.hlevel (props, Rise-prop) },
}

impl<T: Drop, A: Allocator> Numbered<T, A> {
    ghost use Rattle.std.specs.Prelude.{◌≡◌, ◌≤◌, ◌++◌, [], ◌∷◌, ℕ, OnOk, OnErr, IfSome, IfNone, IsSome, None, Some, nat_eq, length};
    ghost use Rattle.std.specs.Option.{option_copied};
    ghost use Rattle.pl_model.specs.Map.{get, without};
    ghost use Rattle.pl_numbered.specs.Rising.{number_at};
    ghost use Rattle.pl_numbered.specs.Numbered.{values, AllUnder, HasRoom};

    /// No values. It takes no memory.
    pub fn new(alloc: A) -> Self
        ensures { values result ≡ [] }
    {
        Numbered {
            entries: Vec::new(alloc),
            empty: 0,
        }
    }

    /// Makes room for one value more.
    ///
    /// # Errors
    ///
    /// `AllocError` where there is neither room nor memory.
    pub fn reserve(&mut self) -> Result<(), AllocError>
        ensures room { OnOk result (HasRoom self.new) }
        ensures same { values self.new ≡ values self.old }
    {
        self.entries.try_reserve(1)
    }

    /// Adds a value for which there is room, under a number above those of all values. It takes no memory.
    pub fn push_reserved(&mut self, number: u64, value: T)
        requires room { HasRoom self.old }
        requires above { AllUnder number (values self.old) }
        ensures { values self.new ≡ values self.old ++ (number, value) ∷ [] }
    {
        self.entries.push_reserved((number, Some(value)));
    }

    /// Adds a value under a number above those of all values.
    ///
    /// # Errors
    ///
    /// `AllocError` where there is neither room nor memory. Then nothing is added.
    pub fn push(&mut self, number: u64, value: T) -> Result<(), AllocError>
        requires { AllUnder number (values self.old) }
        ensures ok { OnOk result (values self.new ≡ values self.old ++ (number, value) ∷ []) }
        ensures err { OnErr result (values self.new ≡ values self.old) }
    {
        self.reserve()?;
        self.push_reserved(number, value);
        Ok(())
    }

    /// How many values there are.
    pub fn len(&self) -> usize
        ensures { result ≡ length (values self.now) }
    {
        self.entries.len() - self.empty
    }

    /// Where the entry of a number stands.
    pub fn place_of(&self, number: u64) -> Option<usize>
        ensures here { IfSome result (λ place. number_at self.now.entries.items place ≡ Some number) }
        ensures none { IfNone result (get nat_eq (values self.now) number ≡ None) }
    {
        place_of(&self.entries, number)
    }

    /// The value of a number.
    pub fn get(&self, number: u64) -> Option<&T>
        ensures { option_copied result ≡ get nat_eq (values self.now) number }
    {
        let place = self.place_of(number)?;
        self.entries[place].1.as_ref()
    }

    /// Takes the value of a number out. It takes no memory.
    pub fn take(&mut self, number: u64) -> Option<T>
        ensures value { result ≡ get nat_eq (values self.old) number }
        ensures rest { values self.new ≡ without nat_eq (values self.old) number }
    {
        let place = self.place_of(number)?;
        let value = self.entries[place].1.take()?;
        self.empty = drop_empty_end(&mut self.entries, self.empty + 1);
        self.close_gaps();
        Some(value)
    }

    /// The least number, `from` or above, that has a value. It goes over the entries between, of which those are empty whose values were taken out.
    pub fn next_from(&self, from: u64) -> Option<u64>
        ensures here { IfSome result (λ number. (from ≤ number) × IsSome (get nat_eq (values self.now) number)) }
        ensures least { IfSome result (λ number. (other : ℕ) → from ≤ other → IsSome (get nat_eq (values self.now) other) → number ≤ other) }
        ensures none { IfNone result ((number : ℕ) → from ≤ number → get nat_eq (values self.now) number ≡ None) }
    {
        let start = count_below(&self.entries, from);
        for place in start..self.entries.len() {
            let entry = &self.entries[place];
            if entry.1.is_some() {
                return Some(entry.0);
            }
        }
        None
    }

    // Moves the values together once more than half of the entries are empty, so that fewer move than were taken out since the last time.
    fn close_gaps(&mut self)
        ensures { values self.new ≡ values self.old }
    {
        if self.empty > self.entries.len() / 2 {
            self.entries.retain(|entry| entry.1.is_some());
            self.empty = 0;
            self.give_back();
        }
    }

    // Gives memory back that the values don't need, where they need less than a quarter of it. It is kept where they can't be moved.
    fn give_back(&mut self)
        ensures { values self.new ≡ values self.old }
    {
        if self.entries.capacity() > KEPT && self.entries.len() < self.entries.capacity() / 4 {
            self.entries.shrink_to_fit();
        }
    }
}
