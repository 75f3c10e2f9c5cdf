//! The queue of a pipe: of bytes, or of packets.
ghost use Rattle.std.specs.Prelude.{◌≡◌, ℕ, ◌+◌, ◌-◌, ◌*◌, ◌/◌, ◌<◌, ◌≤◌, ◌^◌, ◌↔◌, [], ◌++◌, length, take, drop, option_map, is_some, IfOk, OnOk, OnErr, Some, None, Err};
ghost use Rattle.pl_model.specs.Numbers.{first_capacity, most_capacity, most_file_bytes};
ghost use Rattle.pl_model.specs.Packets.{piece_lengths, without_front, spent_of};
ghost use Rattle.pl_segments.specs.Segments.{segment_size, segment_at, holders};
ghost use Rattle.pl_segments.specs.Slices.{AllLie, all_read};
ghost use Rattle.pl_segments.specs.Turns.{Holds, Turns};
ghost use Rattle.pl_segments.specs.Slots.{total, drop_bytes, front_of};
ghost use Rattle.pl_ring.specs.Merging.{lens, IsFront};
ghost use Rattle.pl_ring.specs.Pushed.{FrontFits, Gains, Passed, MakesAtMost};
ghost use Rattle.pl_ring.specs.Ring.{IsCapacity};
ghost use Rattle.pl_packets.specs.Packets.{first_len};
ghost use Rattle.pl_nodes.specs.Queue.{slots_of, capacity_of, packets_of, used_by, front_by, spent_by};

use pl_model::NoMemory;
use pl_packets::PacketRing;
use pl_ring::{CapacityFault, Ring};
use pl_segments::{SEGMENT_SIZE, SliceList, Store};
use std::alloc::Allocator;

/// Bytes in a row (pipe(7)), or packets (pipe(2), `O_DIRECT`).
#[derive(Drop)]
pub(crate) enum Queue<A: Allocator> {
    Bytes(Ring<A>),
    Packets(PacketRing<A>),
}

impl<A: Allocator + Copy> Queue<A> {
    /// Whether it is one of packets.
    pub(crate) fn is_packet(&self) -> bool
        ensures { result ≡ is_some (packets_of self.now) }
    {
        match self {
            Queue::Bytes(_) => false,
            Queue::Packets(_) => true,
        }
    }

    /// How many bytes it holds.
    pub(crate) fn len(&self) -> usize
        ensures value { result ≡ total (slots_of self.now) }
        ensures fits { result ≤ capacity_of self.now }
        ensures few { result ≤ most_capacity }
    {
        // A proof learns here what a capacity is.
        let _capacity = self.capacity();
        match self {
            Queue::Bytes(ring) => ring.len(),
            Queue::Packets(ring) => {
                // And here that no more packets are held than fit.
                let _slots = ring.slots();
                ring.len()
            }
        }
    }

    /// How many bytes the next read can get.
    pub(crate) fn front(&self) -> usize
        ensures value { result ≡ front_by self.now }
        ensures within { result ≤ total (slots_of self.now) }
        ensures few { result ≤ most_capacity }
    {
        match self {
            Queue::Bytes(_) => self.len(),
            Queue::Packets(ring) => ring.front(),
        }
    }

    /// How much it can hold.
    pub(crate) fn capacity(&self) -> usize
        ensures value { result ≡ capacity_of self.now }
        ensures range { IsCapacity result }
    {
        match self {
            Queue::Bytes(ring) => ring.capacity(),
            Queue::Packets(ring) => ring.capacity(),
        }
    }

    /// How much of its capacity it takes.
    pub(crate) fn used(&self) -> usize
        ensures value { result ≡ used_by self.now }
        ensures few { result ≤ most_capacity }
    {
        match self {
            Queue::Bytes(_) => self.len(),
            Queue::Packets(ring) => {
                // A proof learns here what a capacity is.
                let _capacity = ring.capacity();
                ring.slots() * SEGMENT_SIZE
            }
        }
    }

    /// How much of its capacity is free.
    pub(crate) fn room(&self) -> usize
        ensures value { result ≡ capacity_of self.now - used_by self.now }
        ensures few { result ≤ most_capacity }
    {
        // A proof learns here what a capacity is.
        let _capacity = self.capacity();
        match self {
            Queue::Bytes(ring) => ring.room(),
            Queue::Packets(ring) => ring.room(),
        }
    }

    /// How many slots there are.
    pub(crate) fn slots(&self) -> usize
        ensures value { result ≡ length (slots_of self.now) }
        ensures bound { result ≤ 2 * capacity_of self.now / segment_size }
        ensures few { result ≤ most_file_bytes }
    {
        // A proof learns here what a capacity is.
        let _capacity = self.capacity();
        match self {
            Queue::Bytes(ring) => ring.slots(),
            Queue::Packets(ring) => ring.slots(),
        }
    }

    /// Takes bytes out, of which a read can get so many. An error leaves all as it was.
    #[inline(always)]
    pub(crate) fn pop(
        &mut self,
        alloc: A,
        store: &mut Store<A>,
        count: usize,
    ) -> Result<Vec<u8, A>, NoMemory>
        requires held { Holds (segment_at store.old) (slots_of self.old) }
        requires count { count ≤ front_by self.old }
        ensures bytes { IfOk result (λ bytes. bytes.items ≡ take count (all_read (segment_at store.old) (slots_of self.old))) }
        ensures packets { OnOk result (packets_of self.new ≡ option_map (without_front (spent_by self.old count)) (packets_of self.old)) }
        ensures read { OnOk result (all_read (segment_at store.new) (slots_of self.new) ≡ drop (spent_by self.old count) (all_read (segment_at store.old) (slots_of self.old))) }
        ensures turns { OnOk result (Turns (segment_at store.old) (slots_of self.old) (segment_at store.new) (slots_of self.new)) }
        ensures capacity { capacity_of self.new ≡ capacity_of self.old }
        ensures unchanged { OnErr result ((self.new ≡ self.old) × (store.new ≡ store.old)) }
    {
        match self {
            Queue::Bytes(ring) => ring.pop_bytes(store, count),
            Queue::Packets(ring) => pop_packet(ring, alloc, store, count),
        }
    }

    /// Takes bytes out, of which a read can get so many, into a list. It takes no memory.
    #[inline(always)]
    pub(crate) fn pop_into(&mut self, store: &mut Store<A>, into: &mut [u8])
        requires held { Holds (segment_at store.old) (slots_of self.old) }
        requires count { length into.old ≤ front_by self.old }
        ensures bytes { into.new ≡ take (length into.old) (all_read (segment_at store.old) (slots_of self.old)) }
        ensures packets { packets_of self.new ≡ option_map (without_front (spent_by self.old (length into.old))) (packets_of self.old) }
        ensures read { all_read (segment_at store.new) (slots_of self.new) ≡ drop (spent_by self.old (length into.old)) (all_read (segment_at store.old) (slots_of self.old)) }
        ensures turns { Turns (segment_at store.old) (slots_of self.old) (segment_at store.new) (slots_of self.new) }
        ensures capacity { capacity_of self.new ≡ capacity_of self.old }
    {
        match self {
            Queue::Bytes(ring) => ring.pop_into(store, into),
            Queue::Packets(ring) => pop_packet_into(ring, store, into),
        }
    }

    /// Adds bytes at the end, which fit. An error leaves all as it was.
    #[inline(always)]
    pub(crate) fn push(&mut self, store: &mut Store<A>, bytes: &[u8]) -> Result<(), NoMemory>
        requires held { Holds (segment_at store.old) (slots_of self.old) }
        requires room { length bytes.now ≤ capacity_of self.old - used_by self.old }
        ensures packets { OnOk result (packets_of self.new ≡ option_map (λ lengths. lengths ++ piece_lengths (length bytes.now)) (packets_of self.old)) }
        ensures gains { OnOk result (Gains (segment_at store.old) (slots_of self.old) bytes.now (segment_at store.new) (slots_of self.new)) }
        ensures capacity { capacity_of self.new ≡ capacity_of self.old }
        ensures unchanged { OnErr result ((self.new ≡ self.old) × (store.new ≡ store.old)) }
    {
        match self {
            Queue::Bytes(ring) => push_bytes(ring, store, bytes),
            Queue::Packets(ring) => push_packets(ring, store, bytes),
        }
    }

    /// Sets how much it can hold. An error leaves all as it was.
    ///
    /// # Errors
    ///
    /// - `Busy` exactly where it takes more.
    /// - `NoMemory` where it takes no more, and there is no memory for such a capacity.
    pub(crate) fn set_capacity(&mut self, capacity: usize) -> Result<(), CapacityFault>
        requires { IsCapacity capacity }
        ensures ok { OnOk result (capacity_of self.new ≡ capacity) }
        ensures busy { (result ≡ Err CapacityFault.Busy) ↔ (capacity < used_by self.old) }
        ensures slots { slots_of self.new ≡ slots_of self.old }
        ensures packets { packets_of self.new ≡ packets_of self.old }
        ensures unchanged { OnErr result (self.new ≡ self.old) }
    {
        match self {
            Queue::Bytes(ring) => ring.set_capacity(capacity),
            Queue::Packets(ring) => ring.set_capacity(capacity),
        }
    }

    /// The slices of the first bytes of a byte queue.
    pub(crate) fn front_slices(&self, count: usize) -> Result<SliceList<A>, NoMemory>
        requires { packets_of self.now ≡ None }
        ensures value { IfOk result (λ list. list ≡ front_of count (slots_of self.now)) }
        ensures front { IfOk result IsFront }
    {
        let Queue::Bytes(ring) = self else {
            unreachable!()
        };
        // A proof learns here that these are the front of a ring.
        let _len = ring.len();
        let _slots = ring.slots();
        ring.front_slices(count)
    }

    /// Adds slices of held segments at the end of a byte queue, which fit. An error leaves all as it was.
    pub(crate) fn push_slices(
        &mut self,
        store: &mut Store<A>,
        slices: &SliceList<A>,
    ) -> Result<(), NoMemory>
        requires bytes { packets_of self.old ≡ None }
        requires lie { AllLie (segment_at store.old) slices.now }
        requires held { Holds (segment_at store.old) (slots_of self.old) }
        requires few { (key : ℕ) → holders (segment_at store.old) key < 2 ^ 100 }
        requires fits { total (slots_of self.old) + total slices.now ≤ capacity_of self.old }
        ensures bytes { packets_of self.new ≡ None }
        ensures gains { OnOk result (Gains (segment_at store.old) (slots_of self.old) (all_read (segment_at store.old) slices.now) (segment_at store.new) (slots_of self.new)) }
        ensures front { OnOk result (IsFront slices.now → MakesAtMost 3 (slots_of self.old ++ slices.now) store.old (slots_of self.new) store.new) }
        ensures capacity { capacity_of self.new ≡ capacity_of self.old }
        ensures unchanged { OnErr result ((self.new ≡ self.old) × (store.new ≡ store.old)) }
    {
        let Queue::Bytes(ring) = self else {
            unreachable!()
        };
        ring.push_slices(store, slices)
    }

    /// Adds the slices of the front of a ring, which have `count` bytes, at the end of a byte queue, where they fit. An error leaves all as it was.
    pub(crate) fn push_front_slices(
        &mut self,
        store: &mut Store<A>,
        slices: &SliceList<A>,
        count: usize,
    ) -> Result<(), NoMemory>
        requires bytes { packets_of self.old ≡ None }
        requires held { Holds (segment_at store.old) (slots_of self.old) }
        requires few { (key : ℕ) → holders (segment_at store.old) key < 2 ^ 100 }
        requires fits { FrontFits (segment_at store.old) (slots_of self.old) slices.now count (capacity_of self.old) }
        ensures bytes { packets_of self.new ≡ None }
        ensures gains { OnOk result (Gains (segment_at store.old) (slots_of self.old) (all_read (segment_at store.old) slices.now) (segment_at store.new) (slots_of self.new)) }
        ensures makes { OnOk result (MakesAtMost 3 (slots_of self.old ++ slices.now) store.old (slots_of self.new) store.new) }
        ensures capacity { capacity_of self.new ≡ capacity_of self.old }
        ensures unchanged { OnErr result ((self.new ≡ self.old) × (store.new ≡ store.old)) }
    {
        let Queue::Bytes(ring) = self else {
            unreachable!()
        };
        ring.push_front_slices(store, slices, count)
    }

    /// Lets the first bytes of a byte queue go. It takes no memory.
    pub(crate) fn drop_front(&mut self, store: &mut Store<A>, count: usize)
        requires bytes { packets_of self.old ≡ None }
        requires held { Holds (segment_at store.old) (slots_of self.old) }
        requires count { count ≤ total (slots_of self.old) }
        ensures bytes { packets_of self.new ≡ None }
        ensures slots { slots_of self.new ≡ drop_bytes count (slots_of self.old) }
        ensures turns { Turns (segment_at store.old) (slots_of self.old) (segment_at store.new) (slots_of self.new) }
        ensures read { all_read (segment_at store.new) (slots_of self.new) ≡ drop count (all_read (segment_at store.old) (slots_of self.old)) }
        ensures capacity { capacity_of self.new ≡ capacity_of self.old }
    {
        let Queue::Bytes(ring) = self else {
            unreachable!()
        };
        ring.drop_front(store, count);
    }

    /// Exchanges all slots of a byte queue with a ring, where those of each fit the other. The capacities stay. It takes no memory.
    pub(crate) fn exchange(&mut self, other: &mut Ring<A>)
        requires bytes { packets_of self.old ≡ None }
        requires fits { total other.old.slots ≤ capacity_of self.old }
        requires other_fits { total (slots_of self.old) ≤ other.old.capacity }
        ensures bytes { packets_of self.new ≡ None }
        ensures slots { slots_of self.new ≡ other.old.slots }
        ensures other_slots { other.new.slots ≡ slots_of self.old }
        ensures capacity { capacity_of self.new ≡ capacity_of self.old }
        ensures other_capacity { other.new.capacity ≡ other.old.capacity }
    {
        let Queue::Bytes(ring) = self else {
            unreachable!()
        };
        ring.exchange(other);
    }

    /// Takes the first bytes of a ring to the end of a byte queue, where they fit, as `Ring::take_front` does. An error leaves all as it was.
    pub(crate) fn take_front(
        &mut self,
        store: &mut Store<A>,
        other: &mut Ring<A>,
        count: usize,
    ) -> Result<(), NoMemory>
        requires plain { packets_of self.old ≡ None }
        requires held { Holds (segment_at store.old) (slots_of self.old ++ other.old.slots) }
        requires few { (key : ℕ) → holders (segment_at store.old) key < 2 ^ 100 }
        requires count { count ≤ total other.old.slots }
        requires fits { total (slots_of self.old) + count ≤ capacity_of self.old }
        ensures plain { packets_of self.new ≡ None }
        ensures passed { OnOk result (Passed count (segment_at store.old) other.old.slots (slots_of self.old) (segment_at store.new) other.new.slots (slots_of self.new)) }
        ensures makes { OnOk result (MakesAtMost 3 (slots_of self.old ++ front_of count other.old.slots) store.old (slots_of self.new) store.new) }
        ensures capacity { (capacity_of self.new ≡ capacity_of self.old) × (other.new.capacity ≡ other.old.capacity) }
        ensures unchanged { OnErr result ((self.new ≡ self.old) × (other.new ≡ other.old) × (store.new ≡ store.old)) }
    {
        let Queue::Bytes(ring) = self else {
            unreachable!()
        };
        ring.take_front(store, other, count)
    }

    /// Makes a byte queue what that of a new pipe is. It takes no memory.
    pub(crate) fn reset(&mut self, store: &mut Store<A>)
        requires bytes { packets_of self.old ≡ None }
        requires held { Holds (segment_at store.old) (slots_of self.old) }
        ensures bytes { packets_of self.new ≡ None }
        ensures slots { slots_of self.new ≡ [] }
        ensures capacity { capacity_of self.new ≡ first_capacity }
        ensures turns { Turns (segment_at store.old) (slots_of self.old) (segment_at store.new) [] }
    {
        let Queue::Bytes(ring) = self else {
            unreachable!()
        };
        ring.reset(store);
    }

    /// Lets the slots go, which nobody needs any more. It takes no memory.
    pub(crate) fn let_go(self, store: &mut Store<A>)
        requires { Holds (segment_at store.old) (slots_of self) }
        ensures turns { Turns (segment_at store.old) (slots_of self) (segment_at store.new) [] }
    {
        match self {
            Queue::Bytes(mut ring) => ring.reset(store),
            Queue::Packets(mut ring) => ring.clear(store),
        }
    }
}

// Takes the first packet, and gives its first bytes. Where there is none there are no bytes to give.
fn pop_packet<A: Allocator + Copy>(
    ring: &mut PacketRing<A>,
    alloc: A,
    store: &mut Store<A>,
    count: usize,
) -> Result<Vec<u8, A>, NoMemory>
    requires held { Holds (segment_at store.old) ring.old.slots }
    requires count { count ≤ first_len ring.old.slots }
    ensures bytes { IfOk result (λ bytes. bytes.items ≡ take count (all_read (segment_at store.old) ring.old.slots)) }
    ensures packets { OnOk result (lens ring.new.slots ≡ without_front (spent_of (Some (lens ring.old.slots)) count) (lens ring.old.slots)) }
    ensures read { OnOk result (all_read (segment_at store.new) ring.new.slots ≡ drop (spent_of (Some (lens ring.old.slots)) count) (all_read (segment_at store.old) ring.old.slots)) }
    ensures turns { OnOk result (Turns (segment_at store.old) ring.old.slots (segment_at store.new) ring.new.slots) }
    ensures capacity { ring.new.capacity ≡ ring.old.capacity }
    ensures unchanged { OnErr result ((ring.new ≡ ring.old) × (store.new ≡ store.old)) }
{
    // A proof learns here that no packet is empty.
    let _len = ring.len();
    if ring.slots() == 0 {
        return Ok(Vec::new(alloc));
    }
    ring.pop_packet(store, count)
}

// Takes the first packet, and gives its first bytes. Where there is none there are no bytes to give.
fn pop_packet_into<A: Allocator + Copy>(
    ring: &mut PacketRing<A>,
    store: &mut Store<A>,
    into: &mut [u8],
)
    requires held { Holds (segment_at store.old) ring.old.slots }
    requires count { length into.old ≤ first_len ring.old.slots }
    ensures bytes { into.new ≡ take (length into.old) (all_read (segment_at store.old) ring.old.slots) }
    ensures packets { lens ring.new.slots ≡ without_front (spent_of (Some (lens ring.old.slots)) (length into.old)) (lens ring.old.slots) }
    ensures read { all_read (segment_at store.new) ring.new.slots ≡ drop (spent_of (Some (lens ring.old.slots)) (length into.old)) (all_read (segment_at store.old) ring.old.slots) }
    ensures turns { Turns (segment_at store.old) ring.old.slots (segment_at store.new) ring.new.slots }
    ensures capacity { ring.new.capacity ≡ ring.old.capacity }
{
    // A proof learns here that no packet is empty.
    let _len = ring.len();
    if ring.slots() == 0 {
        return;
    }
    ring.pop_packet_into(store, into);
}

// Adds bytes to a ring of bytes that has room for them.
#[inline(always)]
fn push_bytes<A: Allocator + Copy>(
    ring: &mut Ring<A>,
    store: &mut Store<A>,
    bytes: &[u8],
) -> Result<(), NoMemory>
    requires held { Holds (segment_at store.old) ring.old.slots }
    requires room { length bytes.now ≤ ring.old.capacity - total ring.old.slots }
    ensures gains { OnOk result (Gains (segment_at store.old) ring.old.slots bytes.now (segment_at store.new) ring.new.slots) }
    ensures capacity { ring.new.capacity ≡ ring.old.capacity }
    ensures unchanged { OnErr result ((ring.new ≡ ring.old) × (store.new ≡ store.old)) }
{
    // A proof learns here that the ring holds no more than its capacity.
    let _len = ring.len();
    ring.push_bytes(store, bytes)
}

// Adds packets to a ring of packets that has places for them.
fn push_packets<A: Allocator + Copy>(
    ring: &mut PacketRing<A>,
    store: &mut Store<A>,
    bytes: &[u8],
) -> Result<(), NoMemory>
    requires held { Holds (segment_at store.old) ring.old.slots }
    requires room { length bytes.now ≤ ring.old.capacity - segment_size * length (lens ring.old.slots) }
    ensures packets { OnOk result (lens ring.new.slots ≡ lens ring.old.slots ++ piece_lengths (length bytes.now)) }
    ensures gains { OnOk result (Gains (segment_at store.old) ring.old.slots bytes.now (segment_at store.new) ring.new.slots) }
    ensures capacity { ring.new.capacity ≡ ring.old.capacity }
    ensures unchanged { OnErr result ((ring.new ≡ ring.old) × (store.new ≡ store.old)) }
{
    // A proof learns here that no more packets are held than fit.
    let _slots = ring.slots();
    ring.push_packets(store, bytes)
}
