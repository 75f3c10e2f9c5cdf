//! The keys of the spare segments.
ghost use Rattle.std.specs.Prelude.{◌≡◌, ◌+◌, ◌<◌, ◌≤◌, ◌↔◌, [], ◌∷◌, ◌++◌, true, false, length, OnOk, IfSome, IsSome};
ghost use Rattle.std.specs.Option.{option_to_list};

use std::alloc::{AllocError, Allocator};
use std::marker::Model;

/// Keys, and how many there are places for.
#[derive(Drop)]
pub(crate) struct Keys<A: Allocator> {
    keys: Vec<usize, A>,
}

impl<A: Allocator> Model for Keys<A> {
    ghost use Rattle.std.specs.Prelude.{vec_capacity};
    ghost use Rattle.pl_segments.specs.Keys.{Keys as Listed};

    ghost Value = { Listed };

    ghost view = { λ k. record { items = k.keys.items; capacity = vec_capacity k.keys } };
}

impl<A: Allocator> Keys<A> {
    /// No keys. It takes no memory.
    pub(crate) fn new(alloc: A) -> Keys<A>
        ensures { result.items ≡ [] }
    {
        Keys {
            keys: Vec::new(alloc),
        }
    }

    /// How many there are.
    pub(crate) fn len(&self) -> usize
        ensures { result ≡ length self.now.items }
    {
        self.keys.len()
    }

    /// Takes the last one out.
    pub(crate) fn pop(&mut self) -> Option<usize>
        ensures items { self.old.items ≡ self.new.items ++ option_to_list result }
        ensures variant { IsSome result ↔ (0 < length self.old.items) }
        ensures place { IfSome result (λ _. length self.new.items < self.new.capacity) }
    {
        self.keys.pop()
    }

    /// Makes places for so many more. An error leaves the keys as they were.
    pub(crate) fn try_reserve(&mut self, additional: usize) -> Result<(), AllocError>
        ensures items { self.new.items ≡ self.old.items }
        ensures ok { OnOk result (length self.new.items + additional ≤ self.new.capacity) }
    {
        self.keys.try_reserve(additional)
    }

    /// Adds one, for which there is a place.
    pub(crate) fn push_reserved(&mut self, key: usize)
        requires { length self.old.items < self.old.capacity }
        ensures items { self.new.items ≡ self.old.items ++ key ∷ [] }
    {
        self.keys.push_reserved(key);
    }

    /// Adds one where there is a place for it, and returns whether it did.
    #[inline(always)]
    pub(crate) fn keep(&mut self, key: usize) -> bool
        ensures kept { result ≡ true → self.new.items ≡ self.old.items ++ key ∷ [] }
        ensures full { result ≡ false → self.new ≡ self.old }
    {
        if self.keys.len() < self.keys.capacity() {
            self.keys.push_reserved(key);
            true
        } else {
            false
        }
    }
}
