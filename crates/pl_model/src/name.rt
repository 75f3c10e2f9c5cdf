//! Names of files.
ghost use Rattle.std.specs.Prelude.{◌≡◌, List, ℕ, nat_eq, IfOk};

use std::alloc::{AllocError, Allocator, Global};
use std::marker::Model;

/// The name of a file, as it was given: any bytes, which each call that takes a name checks. Contracts see it as their list.
#[derive(Drop, Debug)]
pub struct Name<A: Allocator = Global> {
    bytes: Vec<u8, A>,
}

impl<A: Allocator> Model for Name<A> {
    ghost Value = { List ℕ };

    ghost view = { λ n. n.bytes.items };
}

impl<A: Allocator> Name<A> {
    /// The name of these bytes, whose memory it keeps. It takes no memory.
    pub fn from_vec(bytes: Vec<u8, A>) -> Self
        ensures { result ≡ bytes.items }
    {
        Name { bytes }
    }

    /// The bytes of the name, in order.
    pub fn as_slice(&self) -> &[u8]
        ensures { result.now ≡ self.now }
    {
        self.bytes.as_slice()
    }

    /// The same name, in memory of its own.
    pub fn copy(&self, alloc: A) -> Result<Self, AllocError>
        ensures { IfOk result (λ name. name ≡ self.now) }
    {
        let bytes = Vec::from_slice(alloc, &self.bytes)?;
        Ok(Name::from_vec(bytes))
    }
}

impl<A: Allocator> PartialEq for Name<A> {
    ghost use Rattle.std.specs.Cmp.{partial_equiv_from_equiv};
    ghost use Rattle.std.specs.Cmp.Lexicographic.{pointwise, nat_list_eq_equiv};

    ghost eq = { pointwise nat_eq };

    ghost laws = { partial_equiv_from_equiv nat_list_eq_equiv };

    fn eq(&self, other: &Self) -> bool {
        self.as_slice() == other.as_slice()
    }
}
