//! Keys of descriptions.
ghost use Rattle.std.specs.Prelude.{◌≡◌, [], ◌∷◌, List, ℕ, nat_eq};
ghost use Rattle.pl_model.specs.Kept.{keys_of};

use std::alloc::{Allocator, Global};
use std::marker::Model;
use std::slice;

/// Keys in order, each any number of 64 bits. Contracts see them as their list.
#[derive(Drop, Debug)]
pub struct KeyList<A: Allocator = Global> {
    keys: Keys<A>,
}

/// How keys are kept. Most calls that wait keep one, which stands in place.
#[derive(Drop, Debug)]
enum Keys<A: Allocator> {
    One(usize),
    Several(Vec<usize, A>),
}

impl<A: Allocator> Model for KeyList<A> {
    ghost Value = { List ℕ };

    ghost view = { λ k. keys_of k.keys };
}

impl<A: Allocator> KeyList<A> {
    /// The keys of the vector, whose memory it keeps. It takes no memory.
    pub fn from_vec(keys: Vec<usize, A>) -> Self
        ensures { result ≡ keys.items }
    {
        KeyList {
            keys: Keys::Several(keys),
        }
    }

    /// The keys, in order.
    pub fn as_slice(&self) -> &[usize]
        ensures { result.now ≡ self.now }
    {
        match &self.keys {
            Keys::One(key) => slice::from_ref(key),
            Keys::Several(keys) => keys.as_slice(),
        }
    }
}

impl<A: Allocator> From<usize> for KeyList<A> {
    ghost from_gives = { λ key made. made ≡ key ∷ [] };

    /// One key. It takes no memory.
    fn from(key: usize) -> Self {
        KeyList {
            keys: Keys::One(key),
        }
    }
}

impl<A: Allocator> PartialEq for KeyList<A> {
    ghost use Rattle.std.specs.Cmp.{partial_equiv_from_equiv};
    ghost use Rattle.std.specs.Cmp.Lexicographic.{pointwise, nat_list_eq_equiv};

    ghost eq = { pointwise nat_eq };

    ghost laws = { partial_equiv_from_equiv nat_list_eq_equiv };

    fn eq(&self, other: &Self) -> bool {
        self.as_slice() == other.as_slice()
    }
}
