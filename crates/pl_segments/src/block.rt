//! Blocks of memory for the bytes of one segment.
ghost use Rattle.std.specs.Prelude.{◌≡◌, ◌+◌, ◌≤◌, ◌++◌, [], List, ℕ, length, IfOk};
ghost use Rattle.std.specs.List.{splice};
ghost use Rattle.pl_segments.specs.Segments.{segment_size};

use pl_model::NoMemory;
use std::alloc::Allocator;
use std::marker::Model;

/// The bytes that fit a segment.
pub const SEGMENT_SIZE: usize = 4_096;

/// Puts bytes at as many places. One byte, as a token or a wake-up is, costs less than the call that copies more.
#[inline(always)]
pub(crate) fn put(places: &mut [u8], bytes: &[u8])
    requires { length places.old ≡ length bytes.now }
    ensures { places.new ≡ bytes.now }
{
    if bytes.len() == 1 {
        places[0] = bytes[0];
    } else {
        places.copy_from_slice(bytes);
    }
}

/// At most 4,096 bytes, in memory for so many that was taken at once. Contracts see them as their list.
#[derive(Drop)]
pub(crate) struct Block<A: Allocator> {
    // 4,096 places, of which the first `len` are the bytes: they are written as a slice, without a test for room.
    places: Vec<u8, A>,
    len: usize,
}

impl<A: Allocator> Model for Block<A> {
    ghost use Rattle.std.specs.Prelude.{◌≡◌, ◌≤◌, List, ℕ, length, take};
    ghost use Rattle.pl_segments.specs.Segments.{segment_size};

    ghost Value = { List ℕ };

    ghost view = { λ b. take b.len b.places.items };

    ghost invariant = { λ b. (b.len ≤ segment_size) × (length b.places.items ≡ segment_size) };
}

impl<A: Allocator> Block<A> {
    /// No bytes, and the memory for 4,096.
    pub(crate) fn new(alloc: A) -> Result<Block<A>, NoMemory>
        ensures { IfOk result (λ block. block ≡ []) }
    {
        let places = vec![in alloc; 0; SEGMENT_SIZE]?;
        Ok(Block { places, len: 0 })
    }

    /// Has these bytes in place of those that it had. It takes no memory.
    pub(crate) fn refill(&mut self, bytes: &[u8])
        requires { length bytes.now ≤ segment_size }
        ensures { self.new ≡ bytes.now }
    {
        self.len = bytes.len();
        put(&mut self.places[0..bytes.len()], bytes);
    }

    /// Adds bytes at the end, which fit. It takes no memory.
    pub(crate) fn append(&mut self, more: &[u8])
        requires { length self.old + length more.now ≤ segment_size }
        ensures { self.new ≡ self.old ++ more.now }
    {
        let end = self.len + more.len();
        self.places[self.len..end].copy_from_slice(more);
        self.len = end;
    }

    /// Has these bytes over those that are there, from a place on. It takes no memory.
    pub(crate) fn overwrite(&mut self, place: usize, bytes: &[u8])
        requires { place + length bytes.now ≤ length self.old }
        ensures { self.new ≡ splice self.old place (place + length bytes.now) bytes.now }
    {
        put(&mut self.places[place..place + bytes.len()], bytes);
    }

    /// The bytes.
    #[inline(always)]
    pub(crate) fn as_slice(&self) -> &[u8]
        ensures { result.now ≡ self.now }
    {
        &self.places[..self.len]
    }

    /// How many bytes there are.
    pub(crate) fn len(&self) -> usize
        ensures value { result ≡ length self.now }
        ensures most { result ≤ segment_size }
    {
        self.len
    }
}
