//! Slots in a ring of fixed places.
ghost use Rattle.std.specs.Prelude.{◌≡◌, ◌+◌, ◌-◌, ◌<◌, ◌≤◌, [], ◌∷◌, ◌++◌, length, max, IfSome, IfNone};
ghost use Rattle.circular_buffer.specs.Buffer.{buffer};
ghost use Rattle.pl_segments.specs.Segments.{segment_at, live_count};
ghost use Rattle.pl_segments.specs.Turns.{Holds};
ghost use Rattle.pl_segments.specs.Slots.{last_len, ends_in_part};
ghost use Rattle.pl_ring.specs.Merging.{joining};
ghost use Rattle.pl_ring.specs.Pushed.{CanTake, TookIn, PushedOne};

use crate::plan::joins;
use circular_buffer::HeapCircularBuffer;
use pl_segments::{Slice, Store};
use std::alloc::Allocator;

/// Adds a slot behind the last, where there is a place for it: none is overwritten. It takes no memory.
#[inline(always)]
pub(crate) fn put_last<A: Allocator>(slots: &mut HeapCircularBuffer<Slice, A>, slot: Slice)
    requires { length slots.old.items < slots.old.capacity }
    ensures { slots.new ≡ buffer (slots.old.items ++ slot ∷ []) slots.old.capacity }
{
    // Field by field: a slice that was just made would be waited for if it were moved as a whole.
    slots
        .try_push_back(Slice {
            segment: slot.segment,
            from: slot.from,
            len: slot.len,
        })
        .unwrap();
}

/// Adds slots behind the last, where there are places for them: none is overwritten. It takes no memory.
pub(crate) fn put_all<A: Allocator>(slots: &mut HeapCircularBuffer<Slice, A>, more: &[Slice])
    requires { length slots.old.items + length more.now ≤ slots.old.capacity }
    ensures { slots.new ≡ buffer (slots.old.items ++ more.now) slots.old.capacity }
{
    // Most fronts that go are a page, and a list of one slot costs more than the slot.
    match more {
        [only] => put_last(slots, *only),
        _ => slots.extend_from_slice(more),
    }
}

/// Adds a slot before the first, where there is a place for it. It takes no memory.
pub(crate) fn put_first<A: Allocator>(slots: &mut HeapCircularBuffer<Slice, A>, slot: Slice)
    requires { length slots.old.items < slots.old.capacity }
    ensures { slots.new ≡ buffer (slot ∷ slots.old.items) slots.old.capacity }
{
    slots.try_push_front(slot).unwrap();
}

/// Takes the last slot out.
pub(crate) fn take_last<A: Allocator>(slots: &mut HeapCircularBuffer<Slice, A>) -> Slice
    requires { 1 ≤ length slots.old.items }
    ensures items { slots.old.items ≡ slots.new.items ++ result ∷ [] }
    ensures place { length slots.new.items < slots.new.capacity }
    ensures capacity { slots.new.capacity ≡ slots.old.capacity }
{
    // A proof learns here that there are no more slots than places.
    let _slots = slots.len();
    slots.pop_back().unwrap()
}

/// Takes the first slot out.
#[inline(always)]
pub(crate) fn take_first<A: Allocator>(slots: &mut HeapCircularBuffer<Slice, A>) -> Slice
    requires { 1 ≤ length slots.old.items }
    ensures items { slots.old.items ≡ result ∷ slots.new.items }
    ensures place { length slots.new.items < slots.new.capacity }
    ensures capacity { slots.new.capacity ≡ slots.old.capacity }
{
    // A proof learns here that there are no more slots than places.
    let _slots = slots.len();
    slots.pop_front().unwrap()
}

/// Takes the only slot out. It is taken as the last one, so that the place at which the ring begins isn't written anew.
#[inline(always)]
pub(crate) fn take_only<A: Allocator>(slots: &mut HeapCircularBuffer<Slice, A>) -> Slice
    requires { length slots.old.items ≡ 1 }
    ensures items { slots.old.items ≡ result ∷ slots.new.items }
    ensures capacity { slots.new.capacity ≡ slots.old.capacity }
{
    slots.pop_back().unwrap()
}

/// Takes the first slot out where it has just so many bytes.
#[inline(always)]
pub(crate) fn take_whole<A: Allocator>(
    slots: &mut HeapCircularBuffer<Slice, A>,
    count: usize,
) -> Option<Slice>
    ensures some { IfSome result (λ slot. (slots.old.items ≡ slot ∷ slots.new.items) × (slot.len ≡ count)) }
    ensures none { IfNone result (slots.new ≡ slots.old) }
    ensures capacity { slots.new.capacity ≡ slots.old.capacity }
{
    let front = slots.front()?;
    if front.len as usize != count {
        return None;
    }
    // Field by field: a slot that was just put would be waited for if it were read as a whole.
    let first = Slice {
        segment: front.segment,
        from: front.from,
        len: front.len,
    };
    let _gone = slots.pop_front();
    Some(first)
}

/// How many bytes the last slot has; 0 where there is none.
pub(crate) fn last_len<A: Allocator>(slots: &HeapCircularBuffer<Slice, A>) -> u32
    ensures { result ≡ last_len slots.now.items }
{
    match slots.back() {
        Some(slot) => slot.len,
        None => 0,
    }
}

/// Adds a slot behind the last, with which it becomes one where they aren't the first pair and fit a segment; then there is room
/// for one. A last slot that is all of its segment takes the bytes in, and no segment is made. It takes no memory, and overwrites no
/// slot: there are places for merged slots of all bytes that fit.
#[inline(always)]
pub(crate) fn push_slot<A: Allocator + Copy>(
    store: &mut Store<A>,
    slots: &mut HeapCircularBuffer<Slice, A>,
    slot: Slice,
)
    requires held { Holds (segment_at store.old) (slots.old.items ++ slot ∷ []) }
    requires ring { CanTake slots.old slot.len }
    requires some { 1 ≤ slot.len }
    requires room { joining slots.old.items slot ≤ store.old.room }
    ensures took { TookIn (segment_at store.old) slots.old (slot ∷ []) (segment_at store.new) slots.new }
    ensures one { PushedOne slots.old.items slot slots.new.items }
    ensures room { store.old.room ≤ store.new.room + joining slots.old.items slot }
    ensures once { ends_in_part (segment_at store.new) slots.new.items + store.old.room ≤ store.new.room + max (1 - joining slots.old.items slot) (ends_in_part (segment_at store.old) slots.old.items) }
    ensures in_use { live_count store.new.held ≤ live_count store.old.held + joining slots.old.items slot }
{
    if joins(slots.len(), last_len(slots), slot.len) {
        let last = take_last(slots);
        let joined = store.join_reserved(last, slot);
        put_last(slots, joined);
        return;
    }
    put_last(slots, slot);
}
