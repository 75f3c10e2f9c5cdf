//! Slots that are pushed.
ghost use Rattle.std.specs.Prelude.{◌≡◌, ℕ, ◌+◌, ◌-◌, ◌*◌, ◌<◌, ◌≤◌, ◌^◌, Bool, [], ◌++◌, length, min, count_by, IfOk, OnOk, OnErr};
ghost use Rattle.pl_segments.specs.declared.slice.Slice.{Slice as Part};
ghost use Rattle.pl_segments.specs.Segments.{segment_size, segment_at, holders, live_count};
ghost use Rattle.pl_segments.specs.Slices.{AllLie, all_read};
ghost use Rattle.pl_segments.specs.Turns.{Holds, Turns};
ghost use Rattle.pl_segments.specs.Slots.{total, solid_of, tail_room, ends_in_part, front_of};
ghost use Rattle.pl_ring.specs.Merging.{lens, merges_onto};
ghost use Rattle.pl_ring.specs.Pushed.{AreOfRing, CanTake, IsPlan, Pushed, TookIn, Moved, MakesAtMost, MergesOnto};

use crate::front::{front_slice, front_slices, leave_front};
use crate::places::{push_slot, put_all, put_last, take_last};
use crate::plan::{Plan, plan_of_front};
use circular_buffer::HeapCircularBuffer;
use pl_model::NoMemory;
use pl_segments::{SEGMENT_SIZE, Slice, Store};
use std::alloc::Allocator;

/// How many bytes the last slot can be grown by; 0 where there is none.
#[inline(always)]
fn tail_room<A: Allocator + Copy>(store: &Store<A>, slots: &HeapCircularBuffer<Slice, A>) -> usize
    requires { AllLie (segment_at store.now) slots.now.items }
    ensures value { result ≡ tail_room (segment_at store.now) slots.now.items }
    ensures most { result ≤ segment_size }
{
    match slots.back() {
        Some(slot) => store.room_after(*slot),
        None => 0,
    }
}

/// Grows the last slot by bytes that fit. It takes no memory.
fn grow_tail<A: Allocator + Copy>(
    store: &mut Store<A>,
    slots: &mut HeapCircularBuffer<Slice, A>,
    bytes: &[u8],
)
    requires held { Holds (segment_at store.old) slots.old.items }
    requires slots { AreOfRing slots.old.items }
    requires some { 1 ≤ length bytes.now }
    requires fits { length bytes.now ≤ tail_room (segment_at store.old) slots.old.items }
    ensures pushed { Pushed (segment_at store.old) slots.old bytes.now (segment_at store.new) slots.new }
    ensures in_use { live_count store.new.held ≡ live_count store.old.held }
    ensures room { store.new.room ≡ store.old.room }
{
    let last = take_last(slots);
    let longer = store.try_append(last, bytes).unwrap();
    put_last(slots, longer);
}

/// Pushes bytes in new segments, all filled but the last, for which there is room, and for one more. It takes no memory.
#[inline(always)]
fn push_new<A: Allocator + Copy>(
    store: &mut Store<A>,
    slots: &mut HeapCircularBuffer<Slice, A>,
    bytes: &[u8],
)
    requires held { Holds (segment_at store.old) slots.old.items }
    requires ring { CanTake slots.old (length bytes.now) }
    requires room { 1 ≤ length bytes.now → length bytes.now + segment_size ≤ segment_size * store.old.room }
    ensures pushed { Pushed (segment_at store.old) slots.old bytes.now (segment_at store.new) slots.new }
    ensures in_use { segment_size * live_count store.new.held ≤ segment_size * live_count store.old.held + length bytes.now + 2 * segment_size }
{
    let mut rest = bytes;
    while 0 < rest.len() {
        let count = rest.len().min(SEGMENT_SIZE);
        let (first, more) = rest.split_at(count);
        let slice = store.make_reserved(first);
        push_slot(store, slots, slice);
        rest = more;
    }
}

/// Pushes bytes behind no slot, at most 4,096 of them, in a segment of their own. An error leaves all as it was.
#[inline(always)]
fn push_first<A: Allocator + Copy>(
    store: &mut Store<A>,
    slots: &mut HeapCircularBuffer<Slice, A>,
    bytes: &[u8],
) -> Result<(), NoMemory>
    requires none { slots.old.items ≡ [] }
    requires place { 1 ≤ slots.old.capacity }
    requires some { 1 ≤ length bytes.now }
    requires most { length bytes.now ≤ segment_size }
    ensures pushed { OnOk result (Pushed (segment_at store.old) slots.old bytes.now (segment_at store.new) slots.new) }
    ensures in_use { OnOk result (live_count store.new.held ≡ live_count store.old.held + 1) }
    ensures unchanged { OnErr result ((slots.new ≡ slots.old) × (store.new ≡ store.old)) }
{
    store.reserve(1)?;
    let slice = store.make_reserved(bytes);
    put_last(slots, slice);
    Ok(())
}

/// Pushes bytes that fit: first into the last slot's segment, as many as it takes, and then into new segments, at most two more
/// than the bytes fill. An error leaves all as it was.
#[inline(always)]
pub(crate) fn push_bytes<A: Allocator + Copy>(
    store: &mut Store<A>,
    slots: &mut HeapCircularBuffer<Slice, A>,
    bytes: &[u8],
) -> Result<(), NoMemory>
    requires held { Holds (segment_at store.old) slots.old.items }
    requires ring { CanTake slots.old (length bytes.now) }
    ensures pushed { OnOk result (Pushed (segment_at store.old) slots.old bytes.now (segment_at store.new) slots.new) }
    ensures in_use { OnOk result (segment_size * live_count store.new.held ≤ segment_size * live_count store.old.held + length bytes.now + 2 * segment_size) }
    ensures unchanged { OnErr result ((slots.new ≡ slots.old) × (store.new ≡ store.old)) }
{
    // Most writes are small, and most pipes are empty when they come.
    if slots.is_empty() && !bytes.is_empty() && bytes.len() <= SEGMENT_SIZE {
        return push_first(store, slots, bytes);
    }
    push_behind(store, slots, bytes)
}

// Pushes bytes that fit, behind any slots.
#[inline(never)]
fn push_behind<A: Allocator + Copy>(
    store: &mut Store<A>,
    slots: &mut HeapCircularBuffer<Slice, A>,
    bytes: &[u8],
) -> Result<(), NoMemory>
    requires held { Holds (segment_at store.old) slots.old.items }
    requires ring { CanTake slots.old (length bytes.now) }
    ensures pushed { OnOk result (Pushed (segment_at store.old) slots.old bytes.now (segment_at store.new) slots.new) }
    ensures in_use { OnOk result (segment_size * live_count store.new.held ≤ segment_size * live_count store.old.held + length bytes.now + 2 * segment_size) }
    ensures unchanged { OnErr result ((slots.new ≡ slots.old) × (store.new ≡ store.old)) }
{
    let grown = tail_room(store, slots).min(bytes.len());
    let (first, rest) = bytes.split_at(grown);
    if 0 < rest.len() {
        // One more than the bytes need: the first of the new slots may become one with the last in a segment of their own.
        store.reserve(rest.len().div_ceil(SEGMENT_SIZE) + 1)?;
    }
    if grown != 0 {
        grow_tail(store, slots, first);
    }
    push_new(store, slots, rest);
    Ok(())
}

/// Holds the segments of slices that aren't empty. It takes no memory.
fn hold_all<A: Allocator + Copy>(store: &mut Store<A>, slices: &[Slice])
    requires lie { AllLie (segment_at store.old) slices.now }
    requires few { (key : ℕ) → holders (segment_at store.old) key < 2 ^ 100 }
    ensures turns { Turns (segment_at store.old) [] (segment_at store.new) (solid_of slices.now) }
    ensures read { all_read (segment_at store.new) (solid_of slices.now) ≡ all_read (segment_at store.old) slices.now }
    ensures in_use { live_count store.new.held ≡ live_count store.old.held }
    ensures room { store.new.room ≡ store.old.room }
{
    for i in 0..slices.len() {
        let slice = slices[i];
        if slice.len != 0 {
            store.hold(slice);
        }
    }
}

/// Pushes slices that are held, but those of no bytes. There is room for those that become one with what stands before them: one
/// segment for each, or two more than the slots by which the ring grows, since a slot is copied once at most. `many` is how many slots there
/// are then. It takes no memory.
fn push_held<A: Allocator + Copy>(
    store: &mut Store<A>,
    slots: &mut HeapCircularBuffer<Slice, A>,
    slices: &[Slice],
    many: usize,
)
    requires held { Holds (segment_at store.old) (slots.old.items ++ solid_of slices.now) }
    requires ring { CanTake slots.old (total slices.now) }
    requires room { min (merges_onto slots.old.items (lens (solid_of slices.now))) (length (solid_of slices.now) + 1 + ends_in_part (segment_at store.old) slots.old.items - merges_onto slots.old.items (lens (solid_of slices.now))) ≤ store.old.room }
    requires many { many + merges_onto slots.old.items (lens (solid_of slices.now)) ≡ length slots.old.items + length (solid_of slices.now) }
    ensures took { TookIn (segment_at store.old) slots.old (solid_of slices.now) (segment_at store.new) slots.new }
    ensures count { length slots.new.items ≡ many }
    ensures parts { (test : Part → Bool) → count_by test slots.new.items ≤ count_by test (slots.old.items ++ solid_of slices.now) + merges_onto slots.old.items (lens (solid_of slices.now)) }
    ensures in_use { live_count store.new.held ≤ live_count store.old.held + merges_onto slots.old.items (lens (solid_of slices.now)) }
{
    if many == slots.len() + slices.len() {
        // None is empty, and none becomes one with another.
        put_all(slots, slices);
        return;
    }
    for i in 0..slices.len() {
        let slice = slices[i];
        if slice.len != 0 {
            push_slot(store, slots, slice);
        }
    }
}

/// Pushes slices whose bytes fit, but those of no bytes, as it is planned. All are held before the first two slots become one: a slot that
/// goes then may be the last to hold a segment that a slice further on names. An error leaves all as it was.
pub(crate) fn push_slices<A: Allocator + Copy>(
    store: &mut Store<A>,
    slots: &mut HeapCircularBuffer<Slice, A>,
    slices: &[Slice],
    plan: Plan,
) -> Result<(), NoMemory>
    requires lie { AllLie (segment_at store.old) slices.now }
    requires held { Holds (segment_at store.old) slots.old.items }
    requires few { (key : ℕ) → holders (segment_at store.old) key < 2 ^ 100 }
    requires ring { CanTake slots.old (total slices.now) }
    requires plan { IsPlan slots.old.items slices.now plan }
    ensures pushed { OnOk result (Pushed (segment_at store.old) slots.old (all_read (segment_at store.old) slices.now) (segment_at store.new) slots.new) }
    ensures merges { OnOk result (MergesOnto slots.old.items slices.now store.old slots.new.items store.new) }
    ensures unchanged { OnErr result ((slots.new ≡ slots.old) × (store.new ≡ store.old)) }
{
    store.reserve(plan.merges.min(plan.slots - slots.len() + 2))?;
    hold_all(store, slices);
    push_held(store, slots, slices, plan.slots);
    Ok(())
}

/// Moves the first bytes of the slots of one ring to those of another, where they fit. The slots that go whole keep their holds. An error leaves
/// all as it was.
pub(crate) fn move_front<A: Allocator + Copy>(
    alloc: A,
    store: &mut Store<A>,
    from: &mut HeapCircularBuffer<Slice, A>,
    to: &mut HeapCircularBuffer<Slice, A>,
    count: usize,
) -> Result<(), NoMemory>
    requires held { Holds (segment_at store.old) (to.old.items ++ from.old.items) }
    requires few { (key : ℕ) → holders (segment_at store.old) key < 2 ^ 100 }
    requires count { count ≤ total from.old.items }
    requires source { AreOfRing from.old.items }
    requires ring { CanTake to.old count }
    requires most { to.old.capacity ≤ 512 }
    ensures moved { OnOk result (Moved count (segment_at store.old) from.old to.old (segment_at store.new) from.new to.new) }
    ensures makes { OnOk result (MakesAtMost 3 (to.old.items ++ front_of count from.old.items) store.old to.new.items store.new) }
    ensures unchanged { OnErr result ((from.new ≡ from.old) × (to.new ≡ to.old) × (store.new ≡ store.old)) }
{
    // A page that goes alone needs no list.
    if let Some(only) = front_slice(from, count) {
        return move_slices(store, from, to, &[only], count);
    }
    let slices = front_slices(alloc, from, count)?;
    move_slices(store, from, to, &slices, count)
}

// Moves the first bytes of the slots of one ring to those of another. `slices` are the slices of these bytes.
#[inline(always)]
fn move_slices<A: Allocator + Copy>(
    store: &mut Store<A>,
    from: &mut HeapCircularBuffer<Slice, A>,
    to: &mut HeapCircularBuffer<Slice, A>,
    slices: &[Slice],
    count: usize,
) -> Result<(), NoMemory>
    requires held { Holds (segment_at store.old) (to.old.items ++ from.old.items) }
    requires few { (key : ℕ) → holders (segment_at store.old) key < 2 ^ 100 }
    requires front { slices.now ≡ front_of count from.old.items }
    requires count { count ≤ total from.old.items }
    requires source { AreOfRing from.old.items }
    requires ring { CanTake to.old count }
    requires most { to.old.capacity ≤ 512 }
    ensures moved { OnOk result (Moved count (segment_at store.old) from.old to.old (segment_at store.new) from.new to.new) }
    ensures makes { OnOk result (MakesAtMost 3 (to.old.items ++ front_of count from.old.items) store.old to.new.items store.new) }
    ensures unchanged { OnErr result ((from.new ≡ from.old) × (to.new ≡ to.old) × (store.new ≡ store.old)) }
{
    let plan = plan_of_front(to, slices);
    store.reserve(plan.merges.min(plan.slots - to.len() + 2))?;
    leave_front(store, from, count);
    push_held(store, to, slices, plan.slots);
    Ok(())
}
