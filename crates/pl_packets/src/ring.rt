//! The ring of a packet pipe.
ghost use Rattle.std.specs.Prelude.{◌≡◌, ◌+◌, ◌-◌, ◌*◌, ◌/◌, ◌<◌, ◌≤◌, ◌↔◌, [], ◌∷◌, ◌++◌, length, min, take, drop, IfOk, OnOk, OnErr, Err};
ghost use Rattle.circular_buffer.specs.Buffer.{buffer};
ghost use Rattle.pl_model.specs.Packets.{piece_lengths};
ghost use Rattle.pl_segments.specs.Segments.{segment_at, live_count};
ghost use Rattle.pl_segments.specs.Slices.{all_read};
ghost use Rattle.pl_segments.specs.Turns.{Holds, Turns};
ghost use Rattle.pl_segments.specs.Slots.{total, AllSolid};
ghost use Rattle.pl_ring.specs.Merging.{lens};
ghost use Rattle.pl_ring.specs.Pushed.{Gains};
ghost use Rattle.pl_ring.specs.Ring.{IsCapacity};
ghost use Rattle.pl_packets.specs.Packets.{packet_size, first_len, AllFit, ArePackets};

use circular_buffer::HeapCircularBuffer;
use pl_ring::CapacityFault;
use pl_segments::{NoMemory, SEGMENT_SIZE, Slice, Store};
use std::alloc::{Allocator, Global};
use std::marker::Model;

/// The packets of one pipe, from the front to the back (pipe(2), `O_DIRECT`). A packet has from 1 to 4,096 bytes, in a segment of its
/// own, and takes 4,096 bytes of the capacity. No packet becomes one with another.
#[derive(Drop)]
pub struct PacketRing<A: Allocator = Global> {
    alloc: A,
    slots: HeapCircularBuffer<Slice, A>,
    held: usize,
}

impl<A: Allocator> Model for PacketRing<A> {
    ghost use Rattle.pl_packets.specs.Packets.{PacketRing as Packets};

    ghost Value = { Packets };

    ghost use Rattle.pl_packets.specs.PacketView.{view_of, IsSound};

    ghost view = { view_of };

    ghost invariant = { IsSound };
}

impl<A: Allocator + Copy> PacketRing<A> {
    /// No packets. A capacity is a multiple of 4,096, from 4,096 to 1,048,576.
    ///
    /// # Errors
    ///
    /// `NoMemory`: there is no memory for so many places.
    pub fn new(alloc: A, capacity: usize) -> Result<PacketRing<A>, NoMemory>
        requires { IsCapacity capacity }
        ensures { IfOk result (λ ring. ring ≡ record { slots = []; capacity = capacity }) }
    {
        let slots = HeapCircularBuffer::with_capacity(alloc, capacity / SEGMENT_SIZE)?;
        Ok(PacketRing {
            alloc,
            slots,
            held: 0,
        })
    }

    /// How many bytes all packets have.
    pub fn len(&self) -> usize
        ensures value { result ≡ total self.now.slots }
        ensures solid { AllSolid self.now.slots }
        ensures fit { AllFit self.now.slots }
    {
        self.held
    }

    /// How many packets there are.
    pub fn slots(&self) -> usize
        ensures value { result ≡ length self.now.slots }
        ensures bound { packet_size * result ≤ self.now.capacity }
    {
        self.slots.len()
    }

    /// How many bytes of the capacity packets may take, of which each takes 4,096.
    pub fn capacity(&self) -> usize
        ensures value { result ≡ self.now.capacity }
        ensures range { IsCapacity result }
    {
        self.slots.capacity() * SEGMENT_SIZE
    }

    /// How many more packets fit.
    pub fn places(&self) -> usize
        ensures { result ≡ self.now.capacity / packet_size - length self.now.slots }
    {
        self.slots.capacity() - self.slots.len()
    }

    /// How many bytes of the capacity no packet takes.
    pub fn room(&self) -> usize
        ensures { result + packet_size * length self.now.slots ≡ self.now.capacity }
    {
        self.capacity() - self.slots() * SEGMENT_SIZE
    }

    /// How many bytes the first packet has; 0 if there is none.
    pub fn front(&self) -> usize
        ensures value { result ≡ first_len self.now.slots }
        ensures most { result ≤ packet_size }
    {
        match self.slots.front() {
            Some(slot) => slot.len as usize,
            None => 0,
        }
    }

    /// Adds the packets of bytes at the end: 4,096 bytes each, and a last one of those that are left. They fit. An error leaves all as it
    /// was.
    ///
    /// # Errors
    ///
    /// `NoMemory`: there is no memory for a segment for each packet.
    pub fn push_packets(&mut self, store: &mut Store<A>, bytes: &[u8]) -> Result<(), NoMemory>
        requires held { Holds (segment_at store.old) self.old.slots }
        requires fits { packet_size * length self.old.slots + length bytes.now ≤ self.old.capacity }
        ensures lens { OnOk result (lens self.new.slots ≡ lens self.old.slots ++ piece_lengths (length bytes.now)) }
        ensures gains { OnOk result (Gains (segment_at store.old) self.old.slots bytes.now (segment_at store.new) self.new.slots) }
        ensures in_use { OnOk result (live_count store.new.held ≡ live_count store.old.held + length (piece_lengths (length bytes.now))) }
        ensures capacity { self.new.capacity ≡ self.old.capacity }
        ensures unchanged { OnErr result ((self.new ≡ self.old) × (store.new ≡ store.old)) }
    {
        push_packets(store, &mut self.slots, bytes)?;
        self.held += bytes.len();
        Ok(())
    }

    /// Takes the first packet, which is there, and returns at most `count` of its bytes. The others go. An error leaves all as it was.
    ///
    /// # Errors
    ///
    /// `NoMemory`: there is no memory for the bytes.
    pub fn pop_packet(&mut self, store: &mut Store<A>, count: usize) -> Result<Vec<u8, A>, NoMemory>
        requires held { Holds (segment_at store.old) self.old.slots }
        requires some { 1 ≤ length self.old.slots }
        ensures bytes { IfOk result (λ bytes. bytes.items ≡ take (min count (first_len self.old.slots)) (all_read (segment_at store.old) self.old.slots)) }
        ensures slots { OnOk result (self.new.slots ≡ drop 1 self.old.slots) }
        ensures read { OnOk result (all_read (segment_at store.new) self.new.slots ≡ drop (first_len self.old.slots) (all_read (segment_at store.old) self.old.slots)) }
        ensures turns { OnOk result (Turns (segment_at store.old) self.old.slots (segment_at store.new) self.new.slots) }
        ensures capacity { self.new.capacity ≡ self.old.capacity }
        ensures unchanged { OnErr result ((self.new ≡ self.old) × (store.new ≡ store.old)) }
    {
        let count = count.min(self.front());
        let bytes = copy_first(self.alloc, store, &self.slots, count)?;
        self.pop_packet_into(store, &mut []);
        Ok(bytes)
    }

    /// Takes the first packet, which has at least as many bytes as the list, and fills the list with them. The others go. It takes no
    /// memory.
    pub fn pop_packet_into(&mut self, store: &mut Store<A>, into: &mut [u8])
        requires held { Holds (segment_at store.old) self.old.slots }
        requires some { 1 ≤ length self.old.slots }
        requires count { length into.old ≤ first_len self.old.slots }
        ensures bytes { into.new ≡ take (length into.old) (all_read (segment_at store.old) self.old.slots) }
        ensures slots { self.new.slots ≡ drop 1 self.old.slots }
        ensures read { all_read (segment_at store.new) self.new.slots ≡ drop (first_len self.old.slots) (all_read (segment_at store.old) self.old.slots) }
        ensures turns { Turns (segment_at store.old) self.old.slots (segment_at store.new) self.new.slots }
        ensures capacity { self.new.capacity ≡ self.old.capacity }
    {
        let first = self.slots.pop_front().unwrap();
        self.held -= first.len as usize;
        store.read_out(first, into);
    }

    /// Sets how many bytes of capacity there are: a multiple of 4,096, from 4,096 to 1,048,576. An error leaves all as it was.
    ///
    /// # Errors
    ///
    /// - `Busy` exactly if it has fewer places than there are packets.
    /// - `NoMemory` if it has as many, and there is no memory for them.
    pub fn set_capacity(&mut self, capacity: usize) -> Result<(), CapacityFault>
        requires { IsCapacity capacity }
        ensures ok { OnOk result (self.new ≡ record self.old { capacity = capacity }) }
        ensures busy { (result ≡ Err CapacityFault.Busy) ↔ (capacity < packet_size * length self.old.slots) }
        ensures unchanged { OnErr result (self.new ≡ self.old) }
    {
        let places = capacity / SEGMENT_SIZE;
        if places < self.slots.len() {
            return Err(CapacityFault::Busy);
        }
        if self.slots.resize(places).is_err() {
            return Err(CapacityFault::NoMemory);
        }
        Ok(())
    }

    /// Lets all packets go. It takes no memory.
    pub fn clear(&mut self, store: &mut Store<A>)
        requires { Holds (segment_at store.old) self.old.slots }
        ensures value { self.new ≡ record self.old { slots = [] } }
        ensures turns { Turns (segment_at store.old) self.old.slots (segment_at store.new) [] }
    {
        while 0 < self.slots() {
            self.pop_packet_into(store, &mut []);
        }
    }
}

/// Adds the packets of bytes behind others, for which there are places. An error leaves all as it was.
fn push_packets<A: Allocator + Copy>(
    store: &mut Store<A>,
    slots: &mut HeapCircularBuffer<Slice, A>,
    bytes: &[u8],
) -> Result<(), NoMemory>
    requires held { Holds (segment_at store.old) slots.old.items }
    requires packets { ArePackets slots.old.items }
    requires fits { packet_size * length slots.old.items + length bytes.now ≤ packet_size * slots.old.capacity }
    ensures lens { OnOk result (lens slots.new.items ≡ lens slots.old.items ++ piece_lengths (length bytes.now)) }
    ensures gains { OnOk result (Gains (segment_at store.old) slots.old.items bytes.now (segment_at store.new) slots.new.items) }
    ensures packets { OnOk result (ArePackets slots.new.items) }
    ensures in_use { OnOk result (live_count store.new.held ≡ live_count store.old.held + length (piece_lengths (length bytes.now))) }
    ensures capacity { slots.new.capacity ≡ slots.old.capacity }
    ensures unchanged { OnErr result ((slots.new ≡ slots.old) × (store.new ≡ store.old)) }
{
    store.reserve(bytes.len().div_ceil(SEGMENT_SIZE))?;
    let mut rest = bytes;
    while 0 < rest.len() {
        let count = rest.len().min(SEGMENT_SIZE);
        let (packet, more) = rest.split_at(count);
        let slice = store.make_reserved(packet);
        put_last(slots, slice);
        rest = more;
    }
    Ok(())
}

/// Adds a packet behind the last, for which there is a place. It takes no memory.
fn put_last<A: Allocator>(slots: &mut HeapCircularBuffer<Slice, A>, slot: Slice)
    requires { length slots.old.items < slots.old.capacity }
    ensures { slots.new ≡ buffer (slots.old.items ++ slot ∷ []) slots.old.capacity }
{
    slots.try_push_back(slot).unwrap();
}

/// The first bytes of the first packet, copied.
fn copy_first<A: Allocator + Copy>(
    alloc: A,
    store: &Store<A>,
    slots: &HeapCircularBuffer<Slice, A>,
    count: usize,
) -> Result<Vec<u8, A>, NoMemory>
    requires held { Holds (segment_at store.now) slots.now.items }
    requires some { 1 ≤ length slots.now.items }
    requires count { count ≤ first_len slots.now.items }
    requires most { count ≤ packet_size }
    ensures { IfOk result (λ bytes. bytes.items ≡ take count (all_read (segment_at store.now) slots.now.items)) }
{
    let first = slots.front().unwrap();
    let part = Slice {
        segment: first.segment,
        from: first.from,
        len: count as u32,
    };
    Ok(Vec::from_slice(alloc, store.bytes(part))?)
}
