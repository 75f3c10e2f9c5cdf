//! A ring of packets and its store. Each call looks first whether it may be made.
use pl_packets::PacketRing;
use pl_ring::CapacityFault;
use pl_segments::{NoMemory, Store};
use std::alloc::{AllocError, Allocator, Global};
use std::marker::Model;

/// Why a call isn't made, which leaves all as it was; or what isn't as it should be.
#[derive(Clone, Copy, Debug, PartialEq, Eq)]
pub(crate) enum Fault {
    NoMemory,
    /// The packets don't fit, there is no packet, or no ring has this capacity.
    Unfit,
    Busy,
    /// Something else than what is wanted.
    Other,
}

impl From<AllocError> for Fault {
    fn from(_error: AllocError) -> Fault {
        Fault::NoMemory
    }
}

impl From<NoMemory> for Fault {
    fn from(_error: NoMemory) -> Fault {
        Fault::NoMemory
    }
}

impl From<CapacityFault> for Fault {
    fn from(fault: CapacityFault) -> Fault {
        match fault {
            CapacityFault::Busy => Fault::Busy,
            CapacityFault::NoMemory => Fault::NoMemory,
        }
    }
}

/// A ring of packets over a store, which nothing else holds.
#[derive(Drop)]
pub(crate) struct Kept<A: Allocator = Global> {
    store: Store<A>,
    ring: PacketRing<A>,
}

impl<A: Allocator> Model for Kept<A> {
    ghost use Rattle.std.specs.Prelude.{ℕ};
    ghost use Rattle.pl_segments.specs.Segments.{segment_at};
    ghost use Rattle.pl_segments.specs.Turns.{Holds};

    ghost Value = { ℕ };

    ghost view = { λ _. 0 };

    ghost invariant = { λ k. Holds (segment_at k.store) k.ring.slots };
}

impl<A: Allocator + Copy> Kept<A> {
    /// No packets, and places for two.
    pub(crate) fn new(alloc: A) -> Result<Kept<A>, Fault> {
        let ring = PacketRing::new(alloc, 8_192)?;
        Ok(Kept {
            store: Store::new(alloc),
            ring,
        })
    }

    /// How many packets there are, how many more fit, how many bytes they have, and how many segments are held.
    pub(crate) fn counts(&self) -> (usize, usize, usize, usize) {
        let ring = &self.ring;
        (ring.slots(), ring.places(), ring.len(), self.store.in_use())
    }

    pub(crate) fn push(&mut self, bytes: &[u8]) -> Result<(), Fault> {
        if self.ring.room() < bytes.len() {
            return Err(Fault::Unfit);
        }
        self.ring.push_packets(&mut self.store, bytes)?;
        Ok(())
    }

    pub(crate) fn pop(&mut self, count: usize) -> Result<Vec<u8, A>, Fault> {
        if self.ring.slots() == 0 {
            return Err(Fault::Unfit);
        }
        Ok(self.ring.pop_packet(&mut self.store, count)?)
    }

    /// Takes the first packet, and fills the list with its first bytes.
    pub(crate) fn pop_into(&mut self, into: &mut [u8]) -> Result<(), Fault> {
        if self.ring.slots() == 0 || self.ring.front() < into.len() {
            return Err(Fault::Unfit);
        }
        self.ring.pop_packet_into(&mut self.store, into);
        Ok(())
    }

    pub(crate) fn set_capacity(&mut self, places: usize) -> Result<(), Fault> {
        if places == 0 || 256 < places {
            return Err(Fault::Unfit);
        }
        self.ring.set_capacity(places * 4_096)?;
        Ok(())
    }

    pub(crate) fn clear(&mut self) {
        self.ring.clear(&mut self.store);
    }
}
