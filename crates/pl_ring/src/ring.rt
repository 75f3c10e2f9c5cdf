//! The ring of a pipe.
ghost use Rattle.std.specs.Prelude.{◌≡◌, ℕ, ◌+◌, ◌-◌, ◌*◌, ◌/◌, ◌<◌, ◌≤◌, ◌^◌, ◌↔◌, [], ◌++◌, length, take, drop, IfOk, IsOk, OnOk, OnErr, Err};
ghost use Rattle.pl_model.specs.Numbers.{first_capacity, most_capacity};
ghost use Rattle.pl_segments.specs.Segments.{segment_size, segment_at, holders, live_count};
ghost use Rattle.pl_segments.specs.Slices.{AllLie, all_read};
ghost use Rattle.pl_segments.specs.Turns.{Holds, Turns};
ghost use Rattle.pl_segments.specs.Slots.{total, AllSolid, drop_bytes, front_of};
ghost use Rattle.pl_ring.specs.Merging.{lens, AreMerged, IsFront};
ghost use Rattle.pl_ring.specs.Pushed.{AreOfRing, FrontFits, Gains, Passed, MakesAtMost, MergesOnto};
ghost use Rattle.circular_buffer.specs.Buffer.{buffer};
ghost use Rattle.pl_ring.specs.Ring.{place_size, few_places, IsCapacity, HasPlaces};

use crate::fault::CapacityFault;
use crate::front::{all_slices, copy_front, drop_front, front_slices, pop_into, pop_only};
use crate::plan::{plan_of, plan_of_front};
use crate::push::{move_front, push_bytes, push_slices};
use circular_buffer::HeapCircularBuffer;
use pl_model::NoMemory;
use pl_model::numbers::{FIRST_CAPACITY, MAX_CAPACITY};
use pl_segments::{Slice, SliceList, Store, len_of};
use std::alloc::{Allocator, Global};
use std::marker::Model;
use std::mem;

/// The bytes for each place: two places for a segment.
const PLACE_SIZE: usize = 2_048;

/// How many places the bytes of one segment want.
const FEW_PLACES: usize = 2;

/// The slots of one pipe, from the front to the back: slices of the segments of a store, each of which it holds. With the store
/// it is a list of bytes. Two neighbouring slots, the first pair excepted, have more than 4,096 bytes together, so the slots
/// never need more than `2 * capacity / 4096` places. A ring has two places until more bytes want others, so that an idle pipe is small.
#[derive(Drop)]
pub struct Ring<A: Allocator = Global> {
    alloc: A,
    slots: HeapCircularBuffer<Slice, A>,
    capacity: usize,
    held: usize,
    // No slots, and two places, where `slots` has others: so `reset` takes no memory.
    few: Option<HeapCircularBuffer<Slice, A>>,
}

impl<A: Allocator> Model for Ring<A> {
    ghost use Rattle.pl_ring.specs.Ring.{Ring as Slots};

    ghost Value = { Slots };

    ghost use Rattle.pl_ring.specs.RingView.{view_of, IsSound};

    ghost view = { view_of };

    ghost invariant = { IsSound };
}

impl<A: Allocator + Copy> Ring<A> {
    /// No slots, and two places. A capacity is a multiple of 4,096, from 4,096 to 1,048,576.
    pub fn new(alloc: A, capacity: usize) -> Result<Ring<A>, NoMemory>
        requires { IsCapacity capacity }
        ensures { IfOk result (λ ring. ring ≡ record { slots = []; capacity = capacity }) }
    {
        let slots = HeapCircularBuffer::with_capacity(alloc, FEW_PLACES)?;
        Ok(Ring {
            alloc,
            slots,
            capacity,
            held: 0,
            few: None,
        })
    }

    /// No slots, no places, and the greatest capacity: a ring to exchange with another for as long as that one stands by itself.
    pub fn bare(alloc: A) -> Result<Ring<A>, NoMemory>
        ensures { IfOk result (λ ring. ring ≡ record { slots = []; capacity = most_capacity }) }
    {
        let slots = HeapCircularBuffer::with_capacity(alloc, 0)?;
        Ok(Ring {
            alloc,
            slots,
            capacity: MAX_CAPACITY as usize,
            held: 0,
            few: None,
        })
    }

    /// How many bytes are held.
    pub fn len(&self) -> usize
        ensures value { result ≡ total self.now.slots }
        ensures fits { result ≤ self.now.capacity }
        ensures solid { AllSolid self.now.slots }
    {
        self.held
    }

    /// How many bytes may be held.
    pub fn capacity(&self) -> usize
        ensures value { result ≡ self.now.capacity }
        ensures range { IsCapacity result }
    {
        self.capacity
    }

    /// How many more bytes fit.
    pub fn room(&self) -> usize
        ensures { result ≡ self.now.capacity - total self.now.slots }
    {
        self.capacity - self.held
    }

    /// How many slots there are.
    pub fn slots(&self) -> usize
        ensures value { result ≡ length self.now.slots }
        ensures bound { result ≤ 2 * self.now.capacity / segment_size }
        ensures merged { AreMerged (lens self.now.slots) }
    {
        self.slots.len()
    }

    /// Adds bytes at the end, which fit, in at most two segments more than they fill. An error leaves all as it was.
    #[inline(always)]
    pub fn push_bytes(&mut self, store: &mut Store<A>, bytes: &[u8]) -> Result<(), NoMemory>
        requires held { Holds (segment_at store.old) self.old.slots }
        requires fits { total self.old.slots + length bytes.now ≤ self.old.capacity }
        ensures gains { OnOk result (Gains (segment_at store.old) self.old.slots bytes.now (segment_at store.new) self.new.slots) }
        ensures in_use { OnOk result (segment_size * live_count store.new.held ≤ segment_size * live_count store.old.held + length bytes.now + 2 * segment_size) }
        ensures capacity { self.new.capacity ≡ self.old.capacity }
        ensures unchanged { OnErr result ((self.new ≡ self.old) × (store.new ≡ store.old)) }
    {
        let held = self.held + bytes.len();
        make_places(
            self.alloc,
            &mut self.slots,
            &mut self.few,
            self.capacity,
            held,
        )?;
        push_bytes(store, &mut self.slots, bytes)?;
        self.held = held;
        Ok(())
    }

    /// Adds slices of held segments at the end, whose bytes fit. A slice of no bytes adds no slot, and neither does one that
    /// becomes one with the slot before it. All slots but these are slots that were there or slices that were added. If the slices
    /// are the front of one ring, at most three slots are neither, and at most three segments are made. An error leaves all as it
    /// was.
    pub fn push_slices(
        &mut self,
        store: &mut Store<A>,
        slices: &SliceList<A>,
    ) -> Result<(), NoMemory>
        requires lie { AllLie (segment_at store.old) slices.now }
        requires held { Holds (segment_at store.old) self.old.slots }
        requires few { (key : ℕ) → holders (segment_at store.old) key < 2 ^ 100 }
        requires fits { total self.old.slots + total slices.now ≤ self.old.capacity }
        ensures gains { OnOk result (Gains (segment_at store.old) self.old.slots (all_read (segment_at store.old) slices.now) (segment_at store.new) self.new.slots) }
        ensures merges { OnOk result (MergesOnto self.old.slots slices.now store.old self.new.slots store.new) }
        ensures front { OnOk result (IsFront slices.now → MakesAtMost 3 (self.old.slots ++ slices.now) store.old self.new.slots store.new) }
        ensures capacity { self.new.capacity ≡ self.old.capacity }
        ensures unchanged { OnErr result ((self.new ≡ self.old) × (store.new ≡ store.old)) }
    {
        make_places(
            self.alloc,
            &mut self.slots,
            &mut self.few,
            self.capacity,
            self.capacity,
        )?;
        let plan = plan_of(&self.slots, slices.as_slice());
        push_slices(store, &mut self.slots, slices.as_slice(), plan)?;
        self.held += len_of(slices.as_slice());
        Ok(())
    }

    /// Adds the slices of the front of a ring at the end, as `push_slices` does. They have `count` bytes, which fit. An error leaves all as it was.
    pub fn push_front_slices(
        &mut self,
        store: &mut Store<A>,
        slices: &SliceList<A>,
        count: usize,
    ) -> Result<(), NoMemory>
        requires held { Holds (segment_at store.old) self.old.slots }
        requires few { (key : ℕ) → holders (segment_at store.old) key < 2 ^ 100 }
        requires fits { FrontFits (segment_at store.old) self.old.slots slices.now count self.old.capacity }
        ensures gains { OnOk result (Gains (segment_at store.old) self.old.slots (all_read (segment_at store.old) slices.now) (segment_at store.new) self.new.slots) }
        ensures makes { OnOk result (MakesAtMost 3 (self.old.slots ++ slices.now) store.old self.new.slots store.new) }
        ensures capacity { self.new.capacity ≡ self.old.capacity }
        ensures unchanged { OnErr result ((self.new ≡ self.old) × (store.new ≡ store.old)) }
    {
        make_places(
            self.alloc,
            &mut self.slots,
            &mut self.few,
            self.capacity,
            self.capacity,
        )?;
        let plan = plan_of_front(&self.slots, slices.as_slice());
        push_slices(store, &mut self.slots, slices.as_slice(), plan)?;
        self.held += count;
        Ok(())
    }

    /// The slices of the first bytes.
    pub fn front_slices(&self, count: usize) -> Result<SliceList<A>, NoMemory>
        ensures { IfOk result (λ list. list ≡ front_of count self.now.slots) }
    {
        let list = if count == self.held {
            all_slices(self.alloc, &self.slots)?
        } else {
            front_slices(self.alloc, &self.slots, count)?
        };
        Ok(SliceList::from_vec(list))
    }

    /// Takes the first bytes of another ring, which fit, to the end: slots that go whole are handed over with their holds. But for three at most, all
    /// slots are slots that were there or slices of these bytes, and at most three segments are made. An error leaves all as it was.
    pub fn take_front(
        &mut self,
        store: &mut Store<A>,
        other: &mut Ring<A>,
        count: usize,
    ) -> Result<(), NoMemory>
        requires held { Holds (segment_at store.old) (self.old.slots ++ other.old.slots) }
        requires few { (key : ℕ) → holders (segment_at store.old) key < 2 ^ 100 }
        requires count { count ≤ total other.old.slots }
        requires fits { total self.old.slots + count ≤ self.old.capacity }
        ensures passed { OnOk result (Passed count (segment_at store.old) other.old.slots self.old.slots (segment_at store.new) other.new.slots self.new.slots) }
        ensures makes { OnOk result (MakesAtMost 3 (self.old.slots ++ front_of count other.old.slots) store.old self.new.slots store.new) }
        ensures capacity { (self.new.capacity ≡ self.old.capacity) × (other.new.capacity ≡ other.old.capacity) }
        ensures unchanged { OnErr result ((self.new ≡ self.old) × (other.new ≡ other.old) × (store.new ≡ store.old)) }
    {
        make_places(
            self.alloc,
            &mut self.slots,
            &mut self.few,
            self.capacity,
            self.held + count,
        )?;
        move_front(self.alloc, store, &mut other.slots, &mut self.slots, count)?;
        self.held += count;
        other.held -= count;
        Ok(())
    }

    /// Takes the first bytes. An error leaves all as it was.
    #[inline(always)]
    pub fn pop_bytes(&mut self, store: &mut Store<A>, count: usize) -> Result<Vec<u8, A>, NoMemory>
        requires held { Holds (segment_at store.old) self.old.slots }
        requires count { count ≤ total self.old.slots }
        ensures bytes { IfOk result (λ bytes. bytes.items ≡ take count (all_read (segment_at store.old) self.old.slots)) }
        ensures slots { OnOk result (self.new.slots ≡ drop_bytes count self.old.slots) }
        ensures turns { OnOk result (Turns (segment_at store.old) self.old.slots (segment_at store.new) self.new.slots) }
        ensures read { OnOk result (all_read (segment_at store.new) self.new.slots ≡ drop count (all_read (segment_at store.old) self.old.slots)) }
        ensures capacity { self.new.capacity ≡ self.old.capacity }
        ensures unchanged { OnErr result ((self.new ≡ self.old) × (store.new ≡ store.old)) }
    {
        let bytes = copy_front(self.alloc, store, &self.slots, count)?;
        self.drop_front(store, count);
        Ok(bytes)
    }

    /// Takes the first bytes, into a list of so many. It takes no memory.
    #[inline(always)]
    pub fn pop_into(&mut self, store: &mut Store<A>, into: &mut [u8])
        requires held { Holds (segment_at store.old) self.old.slots }
        requires count { length into.old ≤ total self.old.slots }
        ensures bytes { into.new ≡ take (length into.old) (all_read (segment_at store.old) self.old.slots) }
        ensures turns { Turns (segment_at store.old) self.old.slots (segment_at store.new) self.new.slots }
        ensures read { all_read (segment_at store.new) self.new.slots ≡ drop (length into.old) (all_read (segment_at store.old) self.old.slots) }
        ensures capacity { self.new.capacity ≡ self.old.capacity }
    {
        // Most reads take all that is held, as one write brought it: the place of the first slot isn't worked out then.
        if into.len() == self.held && self.slots.len() == 1 {
            self.held = 0;
            pop_only(store, &mut self.slots, into);
            return;
        }
        self.held -= into.len();
        pop_into(store, &mut self.slots, into);
    }

    /// Lets the first bytes go. It takes no memory.
    #[inline(always)]
    pub fn drop_front(&mut self, store: &mut Store<A>, count: usize)
        requires held { Holds (segment_at store.old) self.old.slots }
        requires count { count ≤ total self.old.slots }
        ensures slots { self.new.slots ≡ drop_bytes count self.old.slots }
        ensures turns { Turns (segment_at store.old) self.old.slots (segment_at store.new) self.new.slots }
        ensures read { all_read (segment_at store.new) self.new.slots ≡ drop count (all_read (segment_at store.old) self.old.slots) }
        ensures capacity { self.new.capacity ≡ self.old.capacity }
    {
        drop_front(store, &mut self.slots, count);
        self.held -= count;
    }

    /// Exchanges all slots with another ring, where those of each fit the other. The capacities stay. It takes no memory.
    pub fn exchange(&mut self, other: &mut Ring<A>)
        requires fits { total other.old.slots ≤ self.old.capacity }
        requires other_fits { total self.old.slots ≤ other.old.capacity }
        ensures here { self.new ≡ record self.old { slots = other.old.slots } }
        ensures there { other.new ≡ record other.old { slots = self.old.slots } }
    {
        mem::swap(&mut self.slots, &mut other.slots);
        mem::swap(&mut self.few, &mut other.few);
        mem::swap(&mut self.held, &mut other.held);
    }

    /// Lets all bytes go, and has the capacity of a new pipe. It takes no memory.
    #[inline(always)]
    pub fn reset(&mut self, store: &mut Store<A>)
        requires { Holds (segment_at store.old) self.old.slots }
        ensures value { self.new ≡ record { slots = []; capacity = first_capacity } }
        ensures turns { Turns (segment_at store.old) self.old.slots (segment_at store.new) [] }
    {
        let held = self.held;
        drop_front(store, &mut self.slots, held);
        if let Some(few) = self.few.take() {
            self.slots = few;
        }
        self.held = 0;
        self.capacity = FIRST_CAPACITY;
    }

    /// Sets how many bytes may be held: a multiple of 4,096, from 4,096 to 1,048,576. It takes no memory. An error leaves all as it was.
    ///
    /// # Errors
    ///
    /// `Busy` exactly where more bytes are held; there is no other.
    pub fn set_capacity(&mut self, capacity: usize) -> Result<(), CapacityFault>
        requires { IsCapacity capacity }
        ensures ok { OnOk result (self.new ≡ record self.old { capacity = capacity }) }
        ensures busy { (result ≡ Err CapacityFault.Busy) ↔ (capacity < total self.old.slots) }
        ensures fits { total self.old.slots ≤ capacity → IsOk result }
        ensures unchanged { OnErr result (self.new ≡ self.old) }
    {
        if capacity < self.held {
            return Err(CapacityFault::Busy);
        }
        self.capacity = capacity;
        Ok(())
    }
}

/// Makes all places that the capacity may want, beside two that are kept for `reset`. An error leaves all as it was. Out of line, since most
/// pipes never want more than two.
#[inline(never)]
fn make_all_places<A: Allocator + Copy>(
    alloc: A,
    slots: &mut HeapCircularBuffer<Slice, A>,
    few: &mut Option<HeapCircularBuffer<Slice, A>>,
    capacity: usize,
) -> Result<(), NoMemory>
    requires { length slots.old.items ≤ capacity / place_size }
    ensures slots { OnOk result (slots.new ≡ record slots.old { capacity = capacity / place_size }) }
    ensures beside { OnOk result (few.new ≡ Some (buffer [] few_places)) }
    ensures unchanged { OnErr result ((slots.new ≡ slots.old) × (few.new ≡ few.old)) }
{
    let beside = HeapCircularBuffer::with_capacity(alloc, FEW_PLACES)?;
    slots.resize(capacity / PLACE_SIZE)?;
    *few = Some(beside);
    Ok(())
}

/// Makes places for the slots of so many bytes, within a capacity, among them those of the slots that are there: all that the capacity may
/// want, if there are too few. An error leaves all as it was.
#[inline(always)]
fn make_places<A: Allocator + Copy>(
    alloc: A,
    slots: &mut HeapCircularBuffer<Slice, A>,
    few: &mut Option<HeapCircularBuffer<Slice, A>>,
    capacity: usize,
    bytes: usize,
) -> Result<(), NoMemory>
    requires capacity { IsCapacity capacity }
    requires fits { bytes ≤ capacity }
    requires among { total slots.old.items ≤ bytes }
    requires slots { AreOfRing slots.old.items }
    requires places { HasPlaces slots.old.capacity few.old }
    ensures items { slots.new.items ≡ slots.old.items }
    ensures places { HasPlaces slots.new.capacity few.new }
    ensures enough { OnOk result (bytes ≤ place_size * slots.new.capacity) }
    ensures unchanged { OnErr result ((slots.new ≡ slots.old) × (few.new ≡ few.old)) }
{
    if bytes <= slots.capacity() * PLACE_SIZE {
        return Ok(());
    }
    make_all_places(alloc, slots, few, capacity)
}
