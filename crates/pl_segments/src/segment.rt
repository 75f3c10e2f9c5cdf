//! Segments with the counts of their holders.
ghost use Rattle.std.specs.Prelude.{◌≡◌, ◌+◌, ◌-◌, ◌<◌, ◌≤◌, ◌^◌, ◌++◌, length};
ghost use Rattle.std.specs.List.{splice};
ghost use Rattle.pl_segments.specs.Segments.{segment_size};

use crate::block::Block;
use std::alloc::Allocator;
use std::marker::Model;

/// Bytes, and how many slots and slices hold them.
#[derive(Drop)]
pub(crate) struct Segment<A: Allocator> {
    block: Block<A>,
    holders: u128,
}

impl<A: Allocator> Model for Segment<A> {
    ghost use Rattle.pl_segments.specs.Segments.{Segment as Held};

    ghost Value = { Held };

    ghost view = { λ s. record { filled = s.block; holders = s.holders } };
}

impl<A: Allocator> Segment<A> {
    /// A segment that nobody holds.
    pub(crate) fn new(block: Block<A>) -> Segment<A>
        ensures { result ≡ record { filled = block; holders = 0 } }
    {
        Segment { block, holders: 0 }
    }

    /// The bytes.
    pub(crate) fn filled(&self) -> &[u8]
        ensures { result.now ≡ self.now.filled }
    {
        self.block.as_slice()
    }

    /// How many bytes there are.
    pub(crate) fn len(&self) -> usize
        ensures value { result ≡ length self.now.filled }
        ensures most { result ≤ segment_size }
    {
        self.block.len()
    }

    /// How many hold it.
    pub(crate) fn holders(&self) -> u128
        ensures { result ≡ self.now.holders }
    {
        self.holders
    }

    /// Adds bytes at the end, which fit. It takes no memory.
    pub(crate) fn append(&mut self, more: &[u8])
        requires { length self.old.filled + length more.now ≤ segment_size }
        ensures { self.new ≡ record self.old { filled = self.old.filled ++ more.now } }
    {
        self.block.append(more);
    }

    /// Has these bytes over those that are there, from a place on. It takes no memory.
    pub(crate) fn overwrite(&mut self, place: usize, bytes: &[u8])
        requires { place + length bytes.now ≤ length self.old.filled }
        ensures { self.new ≡ record self.old { filled = splice self.old.filled place (place + length bytes.now) bytes.now } }
    {
        self.block.overwrite(place, bytes);
    }

    /// Has these bytes in place of those that it had, and takes no memory.
    pub(crate) fn refill(&mut self, bytes: &[u8])
        requires { length bytes.now ≤ segment_size }
        ensures { self.new ≡ record self.old { filled = bytes.now } }
    {
        self.block.refill(bytes);
    }

    /// Has these bytes in place of those that it had, and one holder, and takes no memory.
    pub(crate) fn begin(&mut self, bytes: &[u8])
        requires { length bytes.now ≤ segment_size }
        ensures { self.new ≡ record { filled = bytes.now; holders = 1 } }
    {
        self.block.refill(bytes);
        self.holders = 1;
    }

    /// Adds a holder.
    pub(crate) fn hold(&mut self)
        requires { self.old.holders < 2 ^ 127 }
        ensures { self.new ≡ record self.old { holders = self.old.holders + 1 } }
    {
        self.holders += 1;
    }

    /// Lets a holder go.
    pub(crate) fn release(&mut self)
        requires { 1 ≤ self.old.holders }
        ensures { self.new ≡ record self.old { holders = self.old.holders - 1 } }
    {
        self.holders -= 1;
    }
}
