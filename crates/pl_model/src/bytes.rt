//! The bytes of one read or write.
ghost use Rattle.std.specs.Prelude.{◌≡◌, ◌≤◌, ◌↔◌, List, ℕ, length, nat_eq, IfOk, IfSome, IsSome};
ghost use Rattle.pl_model.specs.Numbers.{most_bytes};

use crate::numbers::MAX_BYTES;
use std::alloc::{AllocError, Allocator, Global};
use std::marker::Model;

/// The bytes of one read or write: at most 16,777,216 of them, as a write takes no more. Contracts see it as their list.
#[derive(Drop, Debug)]
pub struct Bytes8<A: Allocator = Global> {
    bytes: Vec<u8, A>,
}

impl<A: Allocator> Model for Bytes8<A> {
    ghost Value = { List ℕ };

    ghost view = { λ b. b.bytes.items };

    ghost invariant = { λ b. length b.bytes.items ≤ most_bytes };
}

impl<A: Allocator> Bytes8<A> {
    /// The bytes of the vector, whose memory it keeps; `None` exactly above 16,777,216 bytes. It takes no memory.
    pub fn from_vec(bytes: Vec<u8, A>) -> Option<Self>
        ensures fits { IsSome result ↔ (length bytes.items ≤ most_bytes) }
        ensures list { IfSome result (λ made. made ≡ bytes.items) }
    {
        if bytes.len() <= MAX_BYTES {
            Some(Bytes8 { bytes })
        } else {
            None
        }
    }

    /// The bytes, in order: at most 16,777,216.
    pub fn as_slice(&self) -> &[u8]
        ensures value { result.now ≡ self.now }
        ensures few { length result.now ≤ most_bytes }
    {
        self.bytes.as_slice()
    }

    /// The same bytes, in memory of their own.
    pub fn copy(&self, alloc: A) -> Result<Self, AllocError>
        ensures { IfOk result (λ bytes. bytes ≡ self.now) }
    {
        let bytes = Vec::from_slice(alloc, &self.bytes)?;
        Ok(Bytes8 { bytes })
    }
}

impl<A: Allocator> PartialEq for Bytes8<A> {
    ghost use Rattle.std.specs.Cmp.{partial_equiv_from_equiv};
    ghost use Rattle.std.specs.Cmp.Lexicographic.{pointwise, nat_list_eq_equiv};

    ghost eq = { pointwise nat_eq };

    ghost laws = { partial_equiv_from_equiv nat_list_eq_equiv };

    fn eq(&self, other: &Self) -> bool {
        self.as_slice() == other.as_slice()
    }
}
